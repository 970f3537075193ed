// The calls for one processor that is lent its own part alone, for programs that keep its record as words: the lengths of its areas,
// its messages, a fresh start, a message handed over, a message that arrives, and its cells' words for the grid; a turn is in `turn`.
// The route is a word, 0 direct, any other indirect.
#![tactic(auto)]

ghost use Rattle.std.specs.Prelude.{◌≡◌, []};
ghost use Rattle.machine.specs.Machine.{state_of};
ghost use Rattle.engine.specs.Calls.{answer};
ghost use Rattle.part_calls.specs.front.Calls.{part_sizes_call, part_messages_call, part_fresh_call, part_post_call, part_arrive_call, part_collect_call};

pub mod inner; // inner.rt: the calls without the form of the record
pub mod grid; // grid.rt: its cells' words into the grid
pub mod listing; // listing.rt: the rows of its messages
pub mod front; // front.rt: what the calls share: first lines, what is found once in a call, lines 9 and 10
pub mod tile; // tile.rt: a tile calculated in the part, where words of kept cells alone stand
pub mod turn; // turn.rt: a turn on the part

use base::refusal::number_of;
use records::flat_of;

// What is told of a processor's areas: the call's number, the cells of its tiles, the cells that it keeps, the words of the messages that it handles,
// and how many these are; all 0 at a refusal. An answer to C, and so no Result.
#[repr(C)]
#[derive(Clone, Copy)]
pub struct AreaLengths {
    pub number: u32,
    pub cells: u32,
    pub kept: u32,
    pub words: u32,
    pub messages: u32,
}

// How long its areas are.
pub fn sizes(encoded: &[u8], route: u32, processor: u32) -> AreaLengths
    ensures { result ≡ part_sizes_call encoded.now route processor }
{
    match front::open(encoded, route, processor) {
        Ok(layout) => inner::sizes_of(&layout, processor as usize),
        Err(refusal) => inner::no_sizes(refusal.number()),
    }
}

// The messages that it handles, seven words each: number, sending tile, taking tile, sending processor, taking processor, words, their place in its mail.
pub fn messages(encoded: &[u8], route: u32, processor: u32, out: &mut [u32]) -> u32
    ensures { answer result out.new ≡ part_messages_call encoded.now route processor out.old }
{
    match front::open(encoded, route, processor) {
        Ok(layout) => number_of(&listing::messages_part(&layout, processor as usize, out)),
        Err(refusal) => refusal.number(),
    }
}

// A fresh start.
pub fn fresh(
    encoded: &[u8],
    route: u32,
    memory: &mut [u32],
    mail: &mut [u32],
    progress: &mut [u32],
    marks: &mut [u8],
    processor: u32,
) -> u32
    ensures { answer result (state_of memory.new mail.new progress.new marks.new)
        ≡ part_fresh_call encoded.now route
        (state_of memory.old mail.old progress.old marks.old) processor }
{
    let number = inner::fresh(
        encoded,
        route,
        memory,
        mail,
        progress.len(),
        marks,
        processor,
    );
    if number != 0 {
        number
    } else {
        progress.fill(0);
        0
    }
}

// A message is handed over to a transport: its mark from 1 to 2.
pub fn post(
    encoded: &[u8],
    route: u32,
    memory: &[u32],
    mail: &[u32],
    progress: &[u32],
    marks: &mut [u8],
    processor: u32,
    message: u32,
) -> u32
    ensures { answer result (state_of memory.now mail.now progress.now marks.new)
        ≡ part_post_call encoded.now route
        (state_of memory.now mail.now progress.now marks.old) processor message }
{
    inner::post(
        encoded,
        route,
        memory,
        mail,
        flat_of(progress),
        marks,
        processor,
        message,
    )
}

// A message arrives: its words into their place in the mail, its mark from 0 to 2.
pub fn arrive(
    encoded: &[u8],
    route: u32,
    memory: &[u32],
    mail: &mut [u32],
    progress: &[u32],
    marks: &mut [u8],
    processor: u32,
    message: u32,
    words: &[u32],
) -> u32
    ensures { answer result (state_of memory.now mail.new progress.now marks.new)
        ≡ part_arrive_call encoded.now route
        (state_of memory.now mail.old progress.now marks.old) processor message words.now }
{
    inner::arrive(
        encoded,
        route,
        memory,
        mail,
        flat_of(progress),
        marks,
        processor,
        message,
        words,
    )
}

// Its own cells' words into the grid, and the boundary's where a cell is outside the shape; once it has no tiles left.
pub fn collect(
    encoded: &[u8],
    route: u32,
    memory: &[u32],
    progress: &[u32],
    processor: u32,
    grid: &mut [u32],
) -> u32
    ensures { answer result grid.new
        ≡ part_collect_call encoded.now route (state_of memory.now [] progress.now []) processor grid.old }
{
    inner::collect(encoded, route, memory, flat_of(progress), processor, grid)
}
