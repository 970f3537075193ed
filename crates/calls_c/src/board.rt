// The calls of crates/calls/src/board.rt with C linkage, each with the clauses that it has there. tools/exports.py writes this file.
ghost use Rattle.calls.specs.Gave.{areas_of, PartSizesGave, PartMessagesGave, PartFreshGave, PartTurnGave};
ghost use Rattle.calls.specs.Gave.{PartPostGave, PartArriveGave, PartCollectGave};

use part_calls::AreaLengths;
use records::Progress;

// How long its areas are.
#[unsafe(no_mangle)]
pub extern "C" fn rolwyddac_part_sizes(encoded: &[u8], route: u32, processor: u32) -> AreaLengths
    ensures { PartSizesGave encoded.now route processor result }
{
    calls::board::rolwyddac_part_sizes(encoded, route, processor)
}

// The messages that it handles, seven words each: number, sending tile, taking tile, sending processor, taking processor, words, their place in its mail.
#[unsafe(no_mangle)]
pub extern "C" fn rolwyddac_part_messages(
    encoded: &[u8],
    route: u32,
    processor: u32,
    out: &mut [u32],
) -> u32
    ensures { PartMessagesGave encoded.now route processor out.old result out.new }
{
    calls::board::rolwyddac_part_messages(encoded, route, processor, out)
}

// A fresh start.
#[unsafe(no_mangle)]
pub extern "C" fn rolwyddac_part_fresh(
    encoded: &[u8],
    route: u32,
    memory: &mut [u32],
    mail: &mut [u32],
    progress: &mut [Progress],
    marks: &mut [u8],
    processor: u32,
) -> u32
    ensures { PartFreshGave encoded.now route processor
        (areas_of memory.old mail.old progress.old marks.old)
        result (areas_of memory.new mail.new progress.new marks.new) }
{
    calls::board::rolwyddac_part_fresh(encoded, route, memory, mail, progress, marks, processor)
}

// A turn. The source has a word for each cell of its tiles, in index order.
#[unsafe(no_mangle)]
pub extern "C" fn rolwyddac_part_turn(
    encoded: &[u8],
    route: u32,
    source: &[u32],
    memory: &mut [u32],
    mail: &mut [u32],
    progress: &mut [Progress],
    marks: &mut [u8],
    processor: u32,
) -> u32
    ensures { PartTurnGave encoded.now route source.now processor
        (areas_of memory.old mail.old progress.old marks.old)
        result (areas_of memory.new mail.new progress.new marks.new) }
{
    calls::board::rolwyddac_part_turn(
        encoded, route, source, memory, mail, progress, marks, processor,
    )
}

// A message is handed over to a transport: its mark from 1 to 2; its words lie in the mail.
#[unsafe(no_mangle)]
pub extern "C" fn rolwyddac_part_post(
    encoded: &[u8],
    route: u32,
    memory: &[u32],
    mail: &[u32],
    progress: &[Progress],
    marks: &mut [u8],
    processor: u32,
    message: u32,
) -> u32
    ensures { PartPostGave encoded.now route processor message
        (areas_of memory.now mail.now progress.now marks.old)
        result (areas_of memory.now mail.now progress.now marks.new) }
{
    calls::board::rolwyddac_part_post(
        encoded, route, memory, mail, progress, marks, processor, message,
    )
}

// A message arrives: its words into their place in the mail, its mark from 0 to 2.
#[unsafe(no_mangle)]
pub extern "C" fn rolwyddac_part_arrive(
    encoded: &[u8],
    route: u32,
    memory: &[u32],
    mail: &mut [u32],
    progress: &[Progress],
    marks: &mut [u8],
    processor: u32,
    message: u32,
    words: &[u32],
) -> u32
    ensures { PartArriveGave encoded.now route processor message words.now
        (areas_of memory.now mail.old progress.now marks.old)
        result (areas_of memory.now mail.new progress.now marks.new) }
{
    calls::board::rolwyddac_part_arrive(
        encoded, route, memory, mail, progress, marks, processor, message, words,
    )
}

// Its own cells' words into the grid, and the boundary's where a cell is outside the shape; once it has no tiles left.
#[unsafe(no_mangle)]
pub extern "C" fn rolwyddac_part_collect(
    encoded: &[u8],
    route: u32,
    memory: &[u32],
    progress: &[Progress],
    processor: u32,
    grid: &mut [u32],
) -> u32
    ensures { PartCollectGave encoded.now route processor memory.now progress.now
        grid.old result grid.new }
{
    calls::board::rolwyddac_part_collect(encoded, route, memory, progress, processor, grid)
}
