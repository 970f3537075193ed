// Messages in chunks, put together where they are taken: specs/Cut.antt.
ghost use Rattle.std.specs.Prelude.{◌≡◌, ◌+◌, ◌*◌, ◌^◌, ◌≤◌, ◌<◌, length};
ghost use Rattle.std.specs.Int.Bits.{bit_or};
ghost use Rattle.base.specs.Numbers.{first_of};
ghost use Rattle.base.specs.Refusals.{number_of};
ghost use Rattle.packets.specs.Cut.{chunks_of, chunk_length, chunk_of, assembly, there, complete, placed, take_lines, taking_of, take_chunk_call};

use crate::MOST_WORDS;
use base::copy_words;
use base::refusal::Refusal;

// What became of a chunk: a number, 1 where the message is whole now, and the mask of chunks that are there. At a refusal the mask is as it was.
// An answer to C, and so no Result.
#[repr(C)]
#[derive(Clone, Copy)]
pub struct Taken {
    pub number: u32,
    pub whole: u32,
    pub mask: u64,
}

pub const MOST_AREA: usize = 18240; // 64 chunks, as many as a mask has bits

// How many chunks so many words have.
pub fn chunks_of(words: usize) -> usize
    ensures { result ≡ chunks_of words }
{
    words.max(1).div_ceil(MOST_WORDS)
}

// How many words a chunk of them has.
pub fn chunk_length(words: usize, chunk: u32) -> usize
    ensures { result ≡ chunk_length words chunk }
{
    let at = chunk as usize * MOST_WORDS;
    MOST_WORDS.min(words.saturating_sub(at))
}

fn is_there(mask: u64, chunk: u32) -> bool
    requires { chunk < 64 }
    ensures { result ≡ there mask chunk }
{
    (mask >> chunk) % 2 == 1
}

fn with_chunk(mask: u64, chunk: u32) -> u64
    requires { chunk < 64 }
    ensures { result ≡ bit_or mask (2 ^ chunk) }
{
    mask | (1 << chunk)
}

// Whether all bits below `chunks` are set.
fn is_complete(mask: u64, chunks: u32) -> bool
    requires { chunks ≤ 64 }
    ensures { result ≡ complete chunks mask }
{
    (0..chunks).all(|k| is_there(mask, k))
}

// Whether a chunk is one of a message: else the first true line, for an area of so many words.
pub fn admit(chunk: u32, chunks: u32, words: &[u32], area: usize) -> Result<(), Refusal>
    ensures { number_of result ≡ first_of (take_lines (chunk_of chunk chunks words.now) area) }
{
    if area > MOST_AREA {
        return Err(Refusal::Area);
    }
    if chunks as usize != chunks_of(area) {
        return Err(Refusal::NoSuch);
    }
    if chunk >= chunks {
        return Err(Refusal::NoSuch);
    }
    if words.len() != chunk_length(area, chunk) {
        return Err(Refusal::NoSuch);
    }
    Ok(())
}

fn put_chunk(chunk: u32, words: &[u32], area: &mut [u32], mask: u64) -> u64
    requires { (chunk < 64) × (chunk * 285 + length words.now ≤ length area.old) }
    ensures { assembly area.new result ≡ placed chunk words.now (assembly area.old mask) }
{
    if is_there(mask, chunk) {
        return mask;
    }
    let start = chunk as usize * MOST_WORDS;
    copy_words(&mut area[start..start + words.len()], words);
    with_chunk(mask, chunk)
}

// A chunk as a packet brought it, into the area of its message.
pub fn take_chunk(chunk: u32, chunks: u32, words: &[u32], area: &mut [u32], mask: u64) -> Taken
    ensures { taking_of result area.new
        ≡ take_chunk_call (chunk_of chunk chunks words.now) (assembly area.old mask) }
{
    if let Err(refusal) = admit(chunk, chunks, words, area.len()) {
        return Taken {
            number: refusal.number(),
            whole: 0,
            mask,
        };
    }
    let mask = put_chunk(chunk, words, area, mask);
    let whole = u32::from(is_complete(mask, chunks));
    Taken {
        number: 0,
        whole,
        mask,
    }
}
