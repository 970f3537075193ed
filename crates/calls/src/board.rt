// The calls for one processor that is lent its own part alone, with C linkage, its record as a struct: the lengths of its areas, the messages that it
// handles, a fresh start, a turn, a message handed over to a transport, a message that arrives, and its cells' words for the grid.
ghost use Rattle.calls.specs.Gave.{areas_of, PartSizesGave, PartMessagesGave, PartFreshGave, PartTurnGave};
ghost use Rattle.calls.specs.Gave.{PartPostGave, PartArriveGave, PartCollectGave};

use part_calls::AreaLengths;
use records::Progress;

// How long its areas are.
#[unsafe(no_mangle)]
pub extern "C" fn rolwyddac_part_sizes(encoded: &[u8], route: u32, processor: u32) -> AreaLengths
    ensures { PartSizesGave encoded.now route processor result }
{
    part_calls::sizes(encoded, route, processor)
}

// The messages that it handles, seven words each: number, sending tile, taking tile, sending processor, taking processor, words, their place in its mail.
#[unsafe(no_mangle)]
pub extern "C" fn rolwyddac_part_messages(
    encoded: &[u8],
    route: u32,
    processor: u32,
    out: &mut [u32],
) -> u32
    ensures { PartMessagesGave encoded.now route processor out.old result out.new }
{
    part_calls::messages(encoded, route, processor, out)
}

// A fresh start.
#[unsafe(no_mangle)]
pub extern "C" fn rolwyddac_part_fresh(
    encoded: &[u8],
    route: u32,
    memory: &mut [u32],
    mail: &mut [u32],
    progress: &mut [Progress],
    marks: &mut [u8],
    processor: u32,
) -> u32
    ensures { PartFreshGave encoded.now route processor
        (areas_of memory.old mail.old progress.old marks.old)
        result (areas_of memory.new mail.new progress.new marks.new) }
{
    let words = 3 * progress.len();
    let number = part_calls::inner::fresh(encoded, route, memory, mail, words, marks, processor);
    records::clear(progress, number);
    number
}

// A turn. The source has a word for each cell of its tiles, in index order.
#[unsafe(no_mangle)]
pub extern "C" fn rolwyddac_part_turn(
    encoded: &[u8],
    route: u32,
    source: &[u32],
    memory: &mut [u32],
    mail: &mut [u32],
    progress: &mut [Progress],
    marks: &mut [u8],
    processor: u32,
) -> u32
    ensures { PartTurnGave encoded.now route source.now processor
        (areas_of memory.old mail.old progress.old marks.old)
        result (areas_of memory.new mail.new progress.new marks.new) }
{
    let flat = records::flatten(progress);
    let after = part_calls::turn::turn(
        encoded, route, source, memory, mail, flat, marks, processor,
    );
    records::put(progress, 0, after)
}

// A message is handed over to a transport: its mark from 1 to 2; its words lie in the mail.
#[unsafe(no_mangle)]
pub extern "C" fn rolwyddac_part_post(
    encoded: &[u8],
    route: u32,
    memory: &[u32],
    mail: &[u32],
    progress: &[Progress],
    marks: &mut [u8],
    processor: u32,
    message: u32,
) -> u32
    ensures { PartPostGave encoded.now route processor message
        (areas_of memory.now mail.now progress.now marks.old)
        result (areas_of memory.now mail.now progress.now marks.new) }
{
    let flat = records::flatten(progress);
    part_calls::inner::post(
        encoded, route, memory, mail, flat, marks, processor, message,
    )
}

// A message arrives: its words into their place in the mail, its mark from 0 to 2.
#[unsafe(no_mangle)]
pub extern "C" fn rolwyddac_part_arrive(
    encoded: &[u8],
    route: u32,
    memory: &[u32],
    mail: &mut [u32],
    progress: &[Progress],
    marks: &mut [u8],
    processor: u32,
    message: u32,
    words: &[u32],
) -> u32
    ensures { PartArriveGave encoded.now route processor message words.now
        (areas_of memory.now mail.old progress.now marks.old)
        result (areas_of memory.now mail.new progress.now marks.new) }
{
    let flat = records::flatten(progress);
    part_calls::inner::arrive(
        encoded, route, memory, mail, flat, marks, processor, message, words,
    )
}

// Its own cells' words into the grid, and the boundary's where a cell is outside the shape; once it has no tiles left.
#[unsafe(no_mangle)]
pub extern "C" fn rolwyddac_part_collect(
    encoded: &[u8],
    route: u32,
    memory: &[u32],
    progress: &[Progress],
    processor: u32,
    grid: &mut [u32],
) -> u32
    ensures { PartCollectGave encoded.now route processor memory.now progress.now
        grid.old result grid.new }
{
    let flat = records::flatten(progress);
    part_calls::inner::collect(encoded, route, memory, flat, processor, grid)
}
