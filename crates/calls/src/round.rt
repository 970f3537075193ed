// The calls by rounds with C linkage, for the foreman's screen: over progress records as structs the driver, which tells its rounds; and each tile's
// round, one word a tile. Both are on the direct route.
ghost use Rattle.std.specs.Prelude.{◌≡◌, ℕ, ◌≤◌, List, length};
ghost use Rattle.base.specs.Refusals.{code};
ghost use Rattle.machine.specs.Machine.{state_of};
ghost use Rattle.rounds.specs.Rounds.{told};
ghost use Rattle.engine.specs.Calls.{answer};
ghost use Rattle.schedule.specs.Calls.{rounds_call};
ghost use Rattle.calls.specs.DriverWords.{words_after};
ghost use Rattle.calls.specs.Gave.{areas_of, RoundsGave, RoundsOfGave};

use base::refusal::Refusal;
use records::{Flat, Progress, RECORD_WORDS};
use schedule::Driven;

// What the driver makes but for the stores into the records: what it tells and, where its number is 0, the records' words.
#[derive(Clone, Copy)]
pub struct Ran {
    pub driven: Driven,
    pub flat: Flat,
}

fn refused(refusal: Refusal) -> Ran
    ensures { (result.driven.number ≡ code refusal) × ((result.driven.rounds ≡ 0) × (length result.flat.words ≡ 192)) }
{
    let flat = Flat {
        words: [0; RECORD_WORDS],
        count: 0,
    };
    let driven = Driven {
        number: refusal.number(),
        rounds: 0,
    };
    Ran { driven, flat }
}

// The driver but for the stores into the records, which have so many words.
fn drive(
    encoded: &[u8],
    source: &[u32],
    memories: &mut [u32],
    buffer: &mut [u32],
    words: usize,
    status: &mut [u8],
) -> Ran
    ensures { ((records : List ℕ) → words ≡ length records
        → answer result.driven.number (told result.driven.rounds (state_of memories.new buffer.new
        (words_after records result.driven.number result.flat.words) status.new))
        ≡ rounds_call encoded.now source.now
        (state_of memories.old buffer.old records status.old))
        × ((result.driven.number ≡ 0 → words ≤ 192) × (length result.flat.words ≡ 192)) }
{
    // no recipe has so many records
    if words > RECORD_WORDS {
        return match recipe::read_for(encoded, 0) {
            Ok(_) => refused(Refusal::Area),
            Err(refusal) => refused(refusal),
        };
    }
    let mut kept = [0u32; RECORD_WORDS];
    let driven = schedule::run(
        encoded,
        source,
        memories,
        buffer,
        &mut kept[..words],
        status,
    );
    let flat = Flat {
        words: kept,
        count: words,
    };
    Ran { driven, flat }
}

// A fresh start, then rounds to the run's end, and how many there were.
#[unsafe(no_mangle)]
pub extern "C" fn rolwyddac_rounds(
    encoded: &[u8],
    source: &[u32],
    memories: &mut [u32],
    buffer: &mut [u32],
    progress: &mut [Progress],
    status: &mut [u8],
) -> Driven
    ensures { RoundsGave encoded.now source.now
        (areas_of memories.old buffer.old progress.old status.old)
        result (areas_of memories.new buffer.new progress.new status.new) }
{
    let words = 3 * progress.len();
    let ran = drive(encoded, source, memories, buffer, words, status);
    records::put_all(progress, ran.driven.number, ran.flat);
    ran.driven
}

// Each tile's round, one word a tile.
#[unsafe(no_mangle)]
pub extern "C" fn rolwyddac_rounds_of(encoded: &[u8], rounds: &mut [u32]) -> u32
    ensures { RoundsOfGave encoded.now rounds.old result rounds.new }
{
    schedule::rounds_of(encoded, rounds)
}
