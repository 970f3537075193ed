// The messages of a plan, made once in a call: where each is found, and for each tile those that it sends and those due at it, one after
// the other. `spots` has the slot of message m at m and its offset at 7168 + m. A chain has at 7168 + t the first message with tile t at
// an end, and at m the next one with the same tile there; as many as there are messages stands for none.
ghost use Rattle.std.specs.Prelude.{◌≡◌, ℕ, suc, ◌+◌, ◌<◌, ◌≤◌, length, get_or, slice_index, slice_index_or, slice_set};
ghost use Rattle.base.proofs.Select.{rank_in};
ghost use Rattle.machine.specs.Plan.{Message, count};
ghost use Rattle.plan.specs.Messages.{messages_of};
ghost use Rattle.plan.specs.Shaped.{plan_of};
ghost use Rattle.layout.specs.Sizes.{Stepped};
ghost use Rattle.tables.specs.scans.Scans.{Sheet, Lengths, Found};
ghost use Rattle.tables.specs.boxes.Table.{end_of, at_end};
ghost use Rattle.tables.specs.Given.{plan_of_table};
ghost use Rattle.tables.specs.Tables.{FoundIn};
ghost use Rattle.schedule.specs.Index.{spot_of, Listed, Chained};

use crate::{CHAIN_WORDS, SPOT_WORDS};
use layout::Sizes;
use nest::{MOST_MESSAGES, Nest};
use tables::scans::MessageSlot;
use tables::{TABLE_WORDS, Table};

// Slot and offset of each message of so many slots: how many there are.
fn list_spots(lens: &[u16; TABLE_WORDS], slots: usize, spots: &mut [u32; SPOT_WORDS]) -> usize
    requires { Sheet lens.now slots × (length spots.old ≡ 14336) }
    ensures { (length spots.new ≡ 14336) × ((result ≤ slots) × ((f : ℕ → Message) → Lengths f slots lens.now
        → (result ≡ length (messages_of f slots))
        × ((m : ℕ) → m < result → Found f slots m (spot_of lens.now spots.new m)))) }
{
    let mut number = 0;
    let mut offset = 0;
    for slot in 0..slots {
        let words = usize::from(lens[slot]);
        spots[number] = slot as u32;
        spots[MOST_MESSAGES + number] = offset as u32;
        if words != 0 {
            number += 1;
        }
        offset += words;
    }
    number
}

// The same of the nest's messages.
pub fn list(table: &Table, spots: &mut [u32; SPOT_WORDS]) -> usize
    requires { length spots.old ≡ 14336 }
    ensures { (result ≡ count (plan_of_table table.now)) × Listed table.now.layout.sizes.route table.now.layout.nest table.now.lens.now spots.new }
{
    let tiles = table.tiles_of();
    list_spots(table.lens, tiles * table.layout.sizes.ways, spots)
}

// Where message m is found.
pub fn spot(table: &Table, spots: &[u32; SPOT_WORDS], m: usize) -> MessageSlot
    requires { Listed table.now.layout.sizes.route table.now.layout.nest table.now.lens.now spots.now × (m < count (plan_of_table table.now)) }
    ensures { FoundIn table.now.layout.sizes.route table.now.layout.nest m result }
{
    let slot = spots[m] as usize;
    MessageSlot {
        slot,
        number: m,
        offset: spots[MOST_MESSAGES + m] as usize,
        words: usize::from(table.lens[slot]),
    }
}

// The tile at an end of a message, 0 the sender, else the taker; `steps` leads from a box's sender to that end.
fn end_of(table: &Table, steps: [usize; 8], place: MessageSlot, side: usize) -> usize
    requires { Stepped table.now.layout.sizes.route table.now.layout.nest side steps × FoundIn table.now.layout.sizes.route table.now.layout.nest place.number place }
    ensures { (result ≡ end_of side (plan_of_table table.now) place.number) × (result < 1024) }
{
    let slot = place.slot;
    let sender = slot / table.layout.sizes.ways;
    if table.layout.nest.bounds == 0 {
        return sender + steps[slot % table.layout.sizes.ways];
    }
    if side == 0 {
        return sender;
    }
    tables::shaped_table::taker_of(&table.layout, table.lens, slot)
}

// A chain with no message yet.
fn clear(chain: &mut [u16; CHAIN_WORDS], none: usize)
    requires { (length chain.old ≡ 8192) × (none ≤ 7168) }
    ensures { (length chain.new ≡ 8192) × ((t : ℕ) → t < 1024 → slice_index chain.new (7168 + t) ≡ none) }
{
    for t in 0..1024 {
        chain[MOST_MESSAGES + t] = none as u16;
    }
}

// Message m becomes the first of a tile's.
fn link(chain: &mut [u16; CHAIN_WORDS], m: usize, tile: usize)
    requires { (length chain.old ≡ 8192) × ((m < 7168) × (tile < 1024)) }
    ensures { chain.new ≡ slice_set (slice_set chain.old m (slice_index chain.old (7168 + tile))) (7168 + tile) m }
{
    chain[m] = chain[MOST_MESSAGES + tile];
    chain[MOST_MESSAGES + tile] = m as u16;
}

// The chain of all messages by the tile at an end, from the last message on.
pub fn chain_ends(
    table: &Table,
    spots: &[u32; SPOT_WORDS],
    chain: &mut [u16; CHAIN_WORDS],
    messages: usize,
    side: usize,
)
    requires planned { Listed table.now.layout.sizes.route table.now.layout.nest table.now.lens.now spots.now × (length chain.old ≡ 8192) }
    requires messages_value { messages ≡ count (plan_of_table table.now) }
    ensures { Chained (end_of side (plan_of_table table.now)) (count (plan_of_table table.now)) chain.new }
{
    let steps = table.layout.steps_of(side);
    clear(chain, messages);
    for m in (0..messages).rev() {
        let place = spot(table, spots, m);
        let tile = end_of(table, steps, place, side);
        link(chain, m, tile);
    }
}

// The first message with the tile at that end; of the plan the chain is all that is read.
pub fn first(
    nest: &Nest,
    sizes: &Sizes,
    chain: &[u16; CHAIN_WORDS],
    tile: usize,
    side: usize,
) -> usize
    requires { Chained (end_of side (plan_of sizes.now.route nest.now)) (count (plan_of sizes.now.route nest.now)) chain.now × (tile < 1024) }
    ensures { result ≡ slice_index_or (at_end side (plan_of sizes.now.route nest.now) tile) 0 (count (plan_of sizes.now.route nest.now)) }
{
    usize::from(chain[MOST_MESSAGES + tile])
}

// The next one after message m with the tile there.
pub fn next(
    nest: &Nest,
    sizes: &Sizes,
    chain: &[u16; CHAIN_WORDS],
    tile: usize,
    side: usize,
    m: usize,
) -> usize
    requires { Chained (end_of side (plan_of sizes.now.route nest.now)) (count (plan_of sizes.now.route nest.now)) chain.now
        × ((m < count (plan_of sizes.now.route nest.now)) × ((m < 7168) × (end_of side (plan_of sizes.now.route nest.now) m ≡ tile))) }
    ensures { result ≡ get_or (at_end side (plan_of sizes.now.route nest.now) tile) (suc (rank_in (end_of side (plan_of sizes.now.route nest.now)) m))
        (count (plan_of sizes.now.route nest.now)) }
{
    usize::from(chain[m])
}
