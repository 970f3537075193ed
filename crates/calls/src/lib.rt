// The offered calls with C linkage: over progress records as structs a fresh start, a turn, a delivery, collecting; the sweep; a plan's figures,
// a message's line and its hops; reading and writing a recipe; a source from soundings. What a call tells beside its number is returned by value.
// The word `route` is 0 for direct passing, any other for indirect.
// Each call over records is a thin function: it takes the records apart, has covered code work on numbers, and stores what that gives.
// Two steps, either way round (W-214), have no code: specs/Demands214 states them of the calls on bytes, specs/OverRecords214 of these.
#![tactic(auto)]

ghost use Rattle.machine.specs.Runs.{turn_of, delivery_of};
ghost use Rattle.writer.specs.Fields.{fields};
ghost use Rattle.calls.specs.Gave.{areas_of, FreshGave, EventGave, CollectGave, SweepGave, SummaryGave, MessageGave, HopsGave};
ghost use Rattle.calls.specs.Gave.{ReadGave, WriteGave, SoundingsGave};

use base::refusal::number_of;
use records::Progress;
use summary::{Figures, HopCount, MessageLine};
use writer::reading::RecipeFields;

pub mod tenant; // tenant.rt: for one of two tenants on the same processors, and the view of a processor's memory
pub mod chart_text; // chart_text.rt: a grid's text
pub mod hour; // hour.rt: with hours when processors may run
pub mod round; // round.rt: the driver by rounds
pub mod carrier; // carrier.rt: what a transport asks where processors share no memory
pub mod board; // board.rt: for one processor that is lent its own part alone
pub mod mail; // mail.rt: packets, and messages as packets

// One turn of a processor.
#[unsafe(no_mangle)]
pub extern "C" fn rolwyddac_turn(
    encoded: &[u8],
    route: u32,
    source: &[u32],
    memories: &mut [u32],
    buffer: &mut [u32],
    progress: &mut [Progress],
    status: &mut [u8],
    processor: u32,
) -> u32
    ensures { EventGave encoded.now route source.now
        (areas_of memories.old buffer.old progress.old status.old) (turn_of processor)
        result (areas_of memories.new buffer.new progress.new status.new) }
{
    let flat = records::flatten(progress);
    let after = engine::inner::turn(
        encoded, route, source, memories, buffer, flat, status, processor,
    );
    records::put(progress, processor, after)
}

// A fresh start.
#[unsafe(no_mangle)]
pub extern "C" fn rolwyddac_fresh(
    encoded: &[u8],
    route: u32,
    source: &[u32],
    memories: &mut [u32],
    buffer: &mut [u32],
    progress: &mut [Progress],
    status: &mut [u8],
) -> u32
    ensures { FreshGave encoded.now route source.now
        (areas_of memories.old buffer.old progress.old status.old)
        result (areas_of memories.new buffer.new progress.new status.new) }
{
    let words = 3 * progress.len();
    let number = number_of(&engine::inner::fresh(
        encoded, route, source, memories, buffer, words, status,
    ));
    records::clear(progress, number);
    number
}

// The delivery of a message.
#[unsafe(no_mangle)]
pub extern "C" fn rolwyddac_deliver(
    encoded: &[u8],
    route: u32,
    source: &[u32],
    memories: &[u32],
    buffer: &[u32],
    progress: &[Progress],
    status: &mut [u8],
    message: u32,
) -> u32
    ensures { EventGave encoded.now route source.now
        (areas_of memories.now buffer.now progress.now status.old) (delivery_of message)
        result (areas_of memories.now buffer.now progress.now status.new) }
{
    let flat = records::flatten(progress);
    number_of(&engine::inner::deliver(
        encoded, route, source, memories, buffer, flat, status, message,
    ))
}

// The grid, once all processors have finished.
#[unsafe(no_mangle)]
pub extern "C" fn rolwyddac_collect(
    encoded: &[u8],
    route: u32,
    source: &[u32],
    memories: &[u32],
    buffer: &[u32],
    progress: &[Progress],
    status: &[u8],
    grid: &mut [u32],
) -> u32
    ensures { CollectGave encoded.now route source.now
        (areas_of memories.now buffer.now progress.now status.now) grid.old result grid.new }
{
    let flat = records::flatten(progress);
    number_of(&engine::inner::collect(encoded, route, source, memories, buffer, flat, status, grid))
}

// The sequential sweep of the whole grid.
#[unsafe(no_mangle)]
pub extern "C" fn rolwyddac_sweep(encoded: &[u8], source: &[u32], grid: &mut [u32]) -> u32
    ensures { SweepGave encoded.now source.now grid.old result grid.new }
{
    engine::sweep(encoded, source, grid)
}

// The figures of the recipe's plan.
#[unsafe(no_mangle)]
pub extern "C" fn rolwyddac_summary(encoded: &[u8], route: u32) -> Figures
    ensures { SummaryGave encoded.now route result }
{
    summary::summary(encoded, route)
}

// The line of a message.
#[unsafe(no_mangle)]
pub extern "C" fn rolwyddac_message(encoded: &[u8], route: u32, message: u32) -> MessageLine
    ensures { MessageGave encoded.now route message result }
{
    summary::message(encoded, route, message)
}

// The hops on the indirect route of a message of the direct one.
#[unsafe(no_mangle)]
pub extern "C" fn rolwyddac_hops(encoded: &[u8], message: u32) -> HopCount
    ensures { HopsGave encoded.now message result }
{
    summary::hops(encoded, message)
}

// The fields that a recipe holds.
#[unsafe(no_mangle)]
pub extern "C" fn rolwyddac_read(encoded: &[u8]) -> RecipeFields
    ensures { ReadGave encoded.now result }
{
    writer::reading::read(encoded)
}

// The recipe of the fields: of each dimension its length, tile length and processor count, of each distance its four components and
// its weight, of each bound its side, dimension, earlier dimension, slope and offset, these two as the recipe's signed bytes have them;
// the shift, the boundary.
#[unsafe(no_mangle)]
pub extern "C" fn rolwyddac_write(
    lengths: &[u16],
    tiling: &[u16],
    counts: &[u16],
    components: &[u16],
    weights: &[u16],
    sides: &[u8],
    bounded: &[u8],
    earlier: &[u8],
    slopes: &[u8],
    offsets: &[u16],
    shift: u8,
    boundary: u32,
    space: &mut [u8],
) -> u32
    ensures { WriteGave (fields lengths.now tiling.now counts.now components.now
        weights.now sides.now bounded.now earlier.now slopes.now
        offsets.now shift boundary) space.old result space.new }
{
    writer::write(
        lengths, tiling, counts, components, weights, sides, bounded, earlier, slopes, offsets,
        shift, boundary, space,
    )
}

// The source filled from a file of soundings: for each cell the depth of the record that counts, or the value.
#[unsafe(no_mangle)]
pub extern "C" fn rolwyddac_soundings(
    encoded: &[u8],
    file: &[u8],
    value: u32,
    source: &mut [u32],
) -> u32
    ensures { SoundingsGave encoded.now file.now value source.old result source.new }
{
    soundings::fill(encoded, file, value, source)
}
