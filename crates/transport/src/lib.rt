// What a transport asks of the engine where processors share no memory, for programs that keep the records as words: all messages, the
// processor of each cell, what a processor waits for, and taking a message in. The route is a word, 0 direct, any other indirect.
#![tactic(auto)]

ghost use Rattle.std.specs.Prelude.{◌≡◌, []};
ghost use Rattle.base.specs.Refusals.{number_of};
ghost use Rattle.machine.specs.Machine.{state_of};
ghost use Rattle.engine.specs.Calls.{answer};
ghost use Rattle.transport.specs.Calls.{messages_call, owners_call, waits_of, awaited_call, take_in_call};

pub mod inner; // inner.rt: the work of the calls, and those that are lent records without their form
pub mod arrivals; // arrivals.rt: a message at its taker's: its words into their place, and its mark

use base::refusal::{Refusal, number_of};
use layout::Layout;
use plan::Route;
use reader::read;
use recipe::open;
use records::flat_of;
use tables::TABLE_WORDS;

// The rows of all messages, where `out` has room for them and no more.
fn list_messages(encoded: &[u8], route: u32, out: &mut [u32]) -> Result<(), Refusal>
    ensures { answer (number_of result) out.new ≡ messages_call encoded.now route out.old }
{
    let mut lens = [0; TABLE_WORDS];
    let table = open(encoded, route, &mut lens)?;
    let total = table.totals();
    if out.len() != 6 * total.messages {
        return Err(Refusal::Area);
    }
    inner::put_rows(&table, out);
    Ok(())
}

// All messages of the route, six words each: sending tile, taking tile, sending processor, taking processor, words, their place in the buffer.
pub fn messages(encoded: &[u8], route: u32, out: &mut [u32]) -> u32
    ensures { answer result out.new ≡ messages_call encoded.now route out.old }
{
    number_of(&list_messages(encoded, route, out))
}

// The cells' processors, where `out` has a word for each cell.
fn list_owners(encoded: &[u8], out: &mut [u32]) -> Result<(), Refusal>
    ensures { answer (number_of result) out.new ≡ owners_call encoded.now out.old }
{
    let nest = read(encoded)?;
    let layout = Layout::of(nest, Route::Direct);
    if out.len() != layout.sizes.cells {
        return Err(Refusal::Area);
    }
    inner::put_owners(&layout, out);
    Ok(())
}

// The processor of each cell, the number of processors for one outside the shape.
pub fn owners(encoded: &[u8], out: &mut [u32]) -> u32
    ensures { answer result out.new ≡ owners_call encoded.now out.old }
{
    number_of(&list_owners(encoded, out))
}

// What is told of a processor that waits: the call's number, and its tile, 0 at a refusal. An answer to C, and so no Result.
#[repr(C)]
#[derive(Clone, Copy)]
pub struct Waiting {
    pub number: u32,
    pub tile: u32,
}

// What a processor waits for: a mark for each message, and its tile.
pub fn awaited(
    encoded: &[u8],
    route: u32,
    progress: &[u32],
    status: &[u8],
    processor: u32,
    marks: &mut [u8],
) -> Waiting
    ensures { answer result.number (waits_of marks.new result.tile)
        ≡ awaited_call encoded.now route (state_of [] [] progress.now status.now) processor
        marks.old }
{
    inner::awaited(encoded, route, flat_of(progress), status, processor, marks)
}

// A message taken in at its taker's: its words into their place, and its status from 0 to 2.
pub fn take_in(
    encoded: &[u8],
    route: u32,
    source: &[u32],
    memories: &[u32],
    buffer: &mut [u32],
    progress: &[u32],
    status: &mut [u8],
    processor: u32,
    message: u32,
    words: &[u32],
) -> u32
    ensures { answer result (state_of memories.now buffer.new progress.now status.new)
        ≡ take_in_call encoded.now route source.now
        (state_of memories.now buffer.old progress.now status.old) processor message words.now }
{
    number_of(&inner::take_in(
        encoded,
        route,
        source,
        memories,
        buffer,
        flat_of(progress),
        status,
        processor,
        message,
        words,
    ))
}
