// The words of a row's cells that lie in a run, packed and unpacked, piece by piece.
ghost use Rattle.std.specs.Prelude.{length};
ghost use Rattle.runs.specs.Runs.{Room, Packed, Unpacked};

use crate::piece_of;
use base::copy_part;

// The words of a row's cells that lie in one, behind those packed before: each piece at once.
pub fn pack_row(
    words: &mut [u32],
    memory: &[u32],
    starts: &[usize; 8],
    ends: &[usize; 8],
    n: usize,
    from: usize,
    component: usize,
    width: usize,
    packed: usize,
) -> usize
    requires { Room starts.now ends.now n from component width (length memory.now) (length words.old) packed }
    ensures { Packed starts.now ends.now n from component width
        memory.now words.old packed words.new result }
{
    let to = component + width;
    let mut at = component;
    let mut count = packed;
    // from piece to piece, each as long as it is
    while at < to {
        let piece = piece_of(starts, ends, n, at, to);
        copy_part(words, memory, count, from + (at - component), piece.hits);
        count += piece.hits;
        at = piece.end;
    }
    count
}

// Each of the words behind those unpacked before to its cell, of those of a row that lie in one: each piece at once.
pub fn unpack_row(
    memory: &mut [u32],
    words: &[u32],
    starts: &[usize; 8],
    ends: &[usize; 8],
    n: usize,
    from: usize,
    component: usize,
    width: usize,
    unpacked: usize,
) -> usize
    requires { Room starts.now ends.now n from component width (length memory.old) (length words.now) unpacked }
    ensures { Unpacked starts.now ends.now n from component width
        memory.old words.now unpacked memory.new result }
{
    let to = component + width;
    let mut at = component;
    let mut count = unpacked;
    // from piece to piece, each as long as it is
    while at < to {
        let piece = piece_of(starts, ends, n, at, to);
        copy_part(memory, words, from + (at - component), count, piece.hits);
        count += piece.hits;
        at = piece.end;
    }
    count
}
