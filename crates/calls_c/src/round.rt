// The calls of crates/calls/src/round.rt with C linkage, each with the clauses that it has there. tools/exports.py writes this file.
ghost use Rattle.calls.specs.Gave.{areas_of, RoundsGave, RoundsOfGave};

use records::Progress;
use schedule::Driven;

// A fresh start, then rounds to the run's end, and how many there were.
#[unsafe(no_mangle)]
pub extern "C" fn rolwyddac_rounds(
    encoded: &[u8],
    source: &[u32],
    memories: &mut [u32],
    buffer: &mut [u32],
    progress: &mut [Progress],
    status: &mut [u8],
) -> Driven
    ensures { RoundsGave encoded.now source.now
        (areas_of memories.old buffer.old progress.old status.old)
        result (areas_of memories.new buffer.new progress.new status.new) }
{
    calls::round::rolwyddac_rounds(encoded, source, memories, buffer, progress, status)
}

// Each tile's round, one word a tile.
#[unsafe(no_mangle)]
pub extern "C" fn rolwyddac_rounds_of(encoded: &[u8], rounds: &mut [u32]) -> u32
    ensures { RoundsOfGave encoded.now rounds.old result rounds.new }
{
    calls::round::rolwyddac_rounds_of(encoded, rounds)
}
