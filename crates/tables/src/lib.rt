// The table of a nest: the length of each message, found once in a call, and all that is told of messages by it.
// Here box and shape meet: a function looks at the number of bounds once, and its contract speaks of the nest's plan.
#![tactic(auto)]

ghost use Rattle.std.specs.Prelude.{◌≡◌, ◌≤◌, ◌<◌, length, get_or};
ghost use Rattle.base.specs.Lists.{pack, unpack};
ghost use Rattle.machine.specs.Plan.{count, words, held_by, tiles_of};
ghost use Rattle.nest.specs.Nest.{cells};
ghost use Rattle.layout.specs.Sizes.{Routed};
ghost use Rattle.tables.specs.boxes.Table.{at_end};
ghost use Rattle.tables.specs.Tables.{Tabled, FoundIn};

use crate::scans::{MessageSlot, Total};
use layout::Layout;

pub mod scans; // scans.rt: numbers, offsets and totals of messages by a table of lengths, whatever the slots hold
pub mod boxes; // boxes.rt: the table of a nest without bounds
pub mod shaped_table; // shaped_table.rt: the table of a nest with bounds
pub mod message_cells; // message_cells.rt: the cells of a message, listed in the order of its words

// Words of the table: a length for each slot, 7,168 at most; with bounds behind them each tile's number in the box and each tile's processor, 1,024
// of each, and one word more: how many tiles there are.
pub const TABLE_WORDS: usize = 9217;

// Where the processors begin there.
pub const OWNERS_AT: usize = 8192;

// Where the table says how many tiles there are.
pub const COUNT_AT: usize = 9216;

// A layout with its table: what is told of messages and tiles, without bounds or with them. The table's words are lent: a caller has them in an array
// of its own, since 18 kilobytes handed back by value are copied at every call.
#[derive(Drop)]
pub struct Table<'a> {
    pub layout: Layout,
    pub lens: &'a [u16; TABLE_WORDS],
    ghost tabled: { Tabled layout.nest layout.sizes lens.now },
}

// The length of each slot's parcel and, with bounds, what else is found once.
pub fn fill(layout: &Layout, lens: &mut [u16; TABLE_WORDS])
    requires routed { Routed layout.now.nest layout.now.sizes }
    requires lens_len { length lens.old ≡ 9217 }
    ensures { Tabled layout.now.nest layout.now.sizes lens.new }
{
    if layout.nest.bounds == 0 {
        boxes::fill(layout, lens);
        return;
    }
    shaped_table::fill(layout, lens);
}

impl<'a> Table<'a> {
    ghost use Rattle.tables.specs.Given.{plan_of_table};

    // The table of a layout, found once in a call, in words that the caller lends for it.
    pub fn of(layout: Layout, lens: &'a mut [u16; TABLE_WORDS]) -> Table<'a>
        requires routed { Routed layout.nest layout.sizes }
        requires lens_len { length lens.old ≡ 9217 }
        ensures { result.layout ≡ layout }
    {
        fill(&layout, lens);
        Table { layout, lens }
    }

    // How many messages and words there are.
    pub fn totals(&self) -> Total
        ensures { (result.messages ≡ count (plan_of_table self.now)) × ((result.words ≡ words (plan_of_table self.now))
            × ((result.messages ≤ 7168) × (result.words ≤ 117440512))) }
    {
        scans::sums_to(self.lens, self.tiles_of() * self.layout.sizes.ways)
    }

    // How many tiles the processor has.
    pub fn tile_count(&self, processor: usize) -> usize
        ensures { (result ≡ length (tiles_of (plan_of_table self.now) processor)) × (result ≤ 16384) }
    {
        if self.layout.nest.bounds == 0 {
            return self.layout.tile_count(processor);
        }
        shaped_table::tile_count(self.layout.nest, self.lens, processor)
    }

    // Its tile after so many finished ones.
    pub fn tile_at(&self, processor: usize, finished: usize) -> usize
        requires { finished < length (tiles_of (plan_of_table self.now) processor) }
        ensures { (result ≡ get_or (tiles_of (plan_of_table self.now) processor) finished 0) × (result < (plan_of_table self.now).tiles) }
    {
        if self.layout.nest.bounds == 0 {
            return self.layout.tile_at(processor, finished);
        }
        shaped_table::tile_at(self.layout.nest, self.lens, processor, finished)
    }

    // How many messages have the tile at this end: 0 the sender, else the taker.
    pub fn count_at(&self, tile: usize, side: usize) -> usize
        requires { tile < (plan_of_table self.now).tiles }
        ensures { (result ≡ length (at_end side (plan_of_table self.now) tile)) × (result ≤ 7168) }
    {
        if self.layout.nest.bounds == 0 {
            return boxes::count_at(&self.layout, self.lens, tile, side);
        }
        shaped_table::count_at(&self.layout, self.lens, tile, side)
    }

    // The j-th of them.
    pub fn nth_at(&self, tile: usize, side: usize, j: usize) -> MessageSlot
        requires sized { tile < (plan_of_table self.now).tiles }
        requires j_in_bounds { j < length (at_end side (plan_of_table self.now) tile) }
        ensures { FoundIn self.now.layout.sizes.route self.now.layout.nest (get_or (at_end side (plan_of_table self.now) tile) j 0) result }
    {
        if self.layout.nest.bounds == 0 {
            return boxes::nth_at(&self.layout, self.lens, tile, side, j);
        }
        shaped_table::nth_at(&self.layout, self.lens, tile, side, j)
    }

    // Message m.
    pub fn nth(&self, m: usize) -> MessageSlot
        requires { m < count (plan_of_table self.now) }
        ensures { FoundIn self.now.layout.sizes.route self.now.layout.nest m result }
    {
        scans::nth(self.lens, self.tiles_of() * self.layout.sizes.ways, m)
    }

    // How many tiles there are.
    pub fn tiles_of(&self) -> usize
        ensures { (result ≡ (plan_of_table self.now).tiles) × (result ≤ 1024) }
    {
        if self.layout.nest.bounds == 0 {
            return self.layout.sizes.tiles;
        }
        shaped_table::tiles_of(self.layout.nest, self.lens)
    }

    // The words of a message, from a memory.
    pub fn pack(&self, place: MessageSlot, words: &mut [u32], memory: &[u32])
        requires sized { FoundIn self.now.layout.sizes.route self.now.layout.nest place.number place }
        requires memory_len { (length memory.now ≡ cells self.now.layout.nest) × (length words.old ≡ place.words) }
        ensures { words.new ≡ pack memory.now (held_by (plan_of_table self.now) place.number) }
    {
        let slot = place.slot;
        if self.layout.nest.bounds == 0 {
            parcels::pack(&self.layout, slot, words, memory);
            return;
        }
        let tile = shaped_table::box_of(self.layout.nest, self.lens, slot / self.layout.sizes.ways);
        parcels::shaped::pack(
            &self.layout,
            tile,
            slot % self.layout.sizes.ways,
            words,
            memory,
        );
    }

    // The words of a message, into a memory.
    pub fn unpack(&self, place: MessageSlot, memory: &mut [u32], words: &[u32])
        requires sized { FoundIn self.now.layout.sizes.route self.now.layout.nest place.number place }
        requires memory_len { (length memory.old ≡ cells self.now.layout.nest) × (length words.now ≡ place.words) }
        ensures { memory.new
            ≡ unpack memory.old (held_by (plan_of_table self.now) place.number) words.now }
    {
        let slot = place.slot;
        if self.layout.nest.bounds == 0 {
            parcels::unpack(&self.layout, slot, memory, words);
            return;
        }
        let tile = shaped_table::box_of(self.layout.nest, self.lens, slot / self.layout.sizes.ways);
        parcels::shaped::unpack(
            &self.layout,
            tile,
            slot % self.layout.sizes.ways,
            memory,
            words,
        );
    }
}
