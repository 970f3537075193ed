// One processor's own part of the machine's areas, by the table: which cells it keeps words of, which messages it handles, where these stand in its
// part, and its words put in and taken out by a list of cells.
#![tactic(auto)]

ghost use Rattle.std.specs.Prelude.{◌≡◌, ℕ, ◌+◌, ◌*◌, ◌/◌, ◌%◌, ◌≤◌, ◌<◌, length, get_or, eqb};
ghost use Rattle.base.specs.Tests.{one, pick, tabulate};
ghost use Rattle.base.specs.Lists.{In, set_all, unpack, pack};
ghost use Rattle.machine.specs.Plan.{count, held_by};
ghost use Rattle.nest.specs.Accepted.{Accepted};
ghost use Rattle.nest.specs.Nest.{processor_count, cells, box_tiles, processors};
ghost use Rattle.nest.specs.Places.{rank};
ghost use Rattle.plan.specs.Messages.{ways};
ghost use Rattle.plan.specs.Shaped.{box_tile};
ghost use Rattle.layout.specs.Sizes.{Routed};
ghost use Rattle.layout.specs.Laid.{plan_of_layout};
ghost use Rattle.tables.specs.Tables.{FoundIn};
ghost use Rattle.tables.specs.Given.{plan_of_table};
ghost use Rattle.network.specs.Apart.{taker_at};
ghost use Rattle.network.specs.Own.{owns, keeps, handles};
ghost use Rattle.rank_index.specs.Ranks.{marked_cells, rank_at, spread_out, Counted};
ghost use Rattle.part.specs.Part.{rank_of, mail_at, Listed};
ghost use Rattle.part.specs.Marking.{row_cells, Shown, Alike, side_of, Sided};

use crate::sides::is_taker;
use layout::Layout;
use nest::division::place_along;
use nest::{MOST_CELLS, MOST_MESSAGES, Nest};
use rank_index::{BLOCKS, rank};
use tables::Table;
use tables::message_cells::cells_of;
use tables::scans::MessageSlot;

pub mod sides; // sides.rt: what one byte tells of a message: whose ends it has, and how far it is

// One word for each message, 7,168 at most, and one for their end.
pub const MESSAGE_ENDS: usize = 7169;

// ---- cells

// Marks the cells of a row that are in the shape.
fn mark_row(nest: Nest, q: usize, marks: &mut [u8])
    requires { (Accepted nest × (length marks.old ≡ cells nest)) × (q * row_cells nest + row_cells nest ≤ cells nest) }
    ensures { Shown nest (q * row_cells nest) (q * row_cells nest + row_cells nest) marks.old marks.new }
{
    let at = nest::row_place(nest, q);
    let s = nest::span_of(&nest, &at);
    if s.from < s.to {
        let c = q * nest.lengths[nest.dimensions - 1];
        nest::mark(marks, c + s.from, c + s.to);
    }
}

// The same of the rows from one up to another.
fn mark_rows(nest: Nest, from: usize, to: usize, marks: &mut [u8])
    requires { (Accepted nest × (length marks.old ≡ cells nest)) × ((from ≤ to) × (to * row_cells nest ≤ cells nest)) }
    ensures { Shown nest (from * row_cells nest) (to * row_cells nest) marks.old marks.new }
{
    for q in from..to {
        mark_row(nest, q, marks);
    }
}

// So many rows from row q on, at most `most`, lie in the same tiles but for the last dimension, which is not spread.
fn rows_alike(nest: Nest, q: usize, most: usize) -> usize
    requires { Accepted nest × (1 ≤ most) }
    ensures { Alike nest q result × (result ≤ most) }
{
    let at = nest::row_place(nest, q);
    let j = nest.dimensions - 2;
    let a = at[j];
    let k = nest.tiling[j];
    let left = (nest.lengths[j] - a).min(k - place_along(a, k));
    left.min(most)
}

// Marks the cells of the processor's tiles: by rows that have one processor.
pub fn mark_own(layout: &Layout, b: usize, marks: &mut [u8])
    requires routed { Routed layout.now.nest layout.now.sizes }
    requires low { (b < processors layout.now.nest) × (length marks.old ≡ cells layout.now.nest) }
    ensures { marks.new ≡ tabulate (λ c. one (owns (plan_of_layout layout.now) b c)) (cells layout.now.nest) }
{
    marks.fill(0);
    let width = layout.nest.lengths[layout.nest.dimensions - 1];
    let rows = nest::row_count(layout.nest);
    let mut q = 0;
    // from one stretch of rows with one processor to the next, each as long as it is
    while q < rows {
        let end = q + rows_alike(layout.nest, q, rows - q);
        let tile = layout.tile_of(q * width);
        let processor = layout.processor_of(tile);
        if processor == b {
            mark_rows(layout.nest, q, end, marks);
        }
        q = end;
    }
}

// ---- the processors at the ends of a slot's message, by chains: tiles that differ in the last dimension alone, which is not spread

// The processor at a way's end from a tile's place, as if there were a tile.
fn ahead_of(nest: Nest, at: [usize; 4], along: [usize; 4]) -> usize
    requires { Accepted nest × ((j : ℕ) → j < nest.spread → get_or at j 0 + get_or along j 0 < 65536) }
    ensures { result ≡ rank (processor_count nest) (λ j. (get_or at j 0 + get_or along j 0) % processor_count nest j) nest.spread }
{
    let counts = nest.counts;
    let n = nest.spread;
    let mut to = [0; 4];
    for j in 0..n {
        to[j] = (at[j] + along[j]) % counts[j];
    }
    layout::rank(counts, to, n)
}

// Whether they are the same, as a byte.
fn same_as(a: usize, b: usize) -> u8
    ensures { result ≡ one (eqb a b) }
{
    if a == b { 1 } else { 0 }
}

// The bytes of a tile's slots.
fn put_sides(layout: &Layout, b: usize, tile: usize, row: &mut [u8])
    requires { (tile < box_tiles layout.now.nest) × (length row.old ≡ ways layout.now.sizes.route layout.now.nest) }
    ensures { row.new ≡ tabulate (side_of layout.now.sizes.route layout.now.nest b tile) (ways layout.now.sizes.route layout.now.nest) }
{
    let at = layout.place_of_tile(tile);
    let from = same_as(layout.processor_of(tile), b);
    for (w, side) in row.iter_mut().enumerate() {
        let along = layout.along_of(w);
        *side = from + 2 * same_as(ahead_of(layout.nest, at, along), b);
    }
}

// A tile's number in the box.
pub fn box_tile(table: &Table, tile: usize) -> usize
    requires { tile < (plan_of_table table.now).tiles }
    ensures { (result ≡ box_tile table.now.layout.nest tile) × (result < box_tiles table.now.layout.nest) }
{
    if table.layout.nest.bounds == 0 {
        return tile;
    }
    tables::shaped_table::box_of(table.layout.nest, table.lens, tile)
}

// For each slot which of its ends are the processor's, looked up once a chain.
fn fill_sides(table: &Table, b: usize, sides: &mut [u8])
    requires { length sides.old ≡ 7168 }
    ensures { Sided table.now.layout.sizes.route table.now.layout.nest b ((plan_of_table table.now).tiles * table.now.layout.sizes.ways) sides.new }
{
    let ways = table.layout.sizes.ways;
    let across = table.layout.sizes.across[table.layout.nest.dimensions - 1];
    let tiles = table.tiles_of();
    let mut known = None;
    for tile in 0..tiles {
        let number = box_tile(table, tile);
        let chain = number / across;
        let from = tile * ways;
        if known == Some(chain) {
            sides.copy_within(from - ways..from, from);
        } else {
            let end = from + ways;
            put_sides(&table.layout, b, number, &mut sides[from..end]);
        }
        known = Some(chain);
    }
}

// ---- cells that messages bring

// Marks these cells.
fn mark_cells(marks: &mut [u8], cells: &[u16])
    requires { (c : ℕ) → In c cells.now → c < length marks.old }
    ensures { marks.new ≡ set_all marks.old cells.now 1 }
{
    for &c in cells {
        marks[usize::from(c)] = 1;
    }
}

// Marks the cells of a message, by their list.
fn mark_held(table: &Table, place: MessageSlot, list: &mut [u16], marks: &mut [u8])
    requires sized { FoundIn table.now.layout.sizes.route table.now.layout.nest place.number place }
    requires list_len { (length list.old ≡ place.words) × (length marks.old ≡ cells table.now.layout.nest) }
    ensures { marks.new ≡ set_all marks.old (held_by (plan_of_table table.now) place.number) 1 }
{
    cells_of(&table.layout, table.lens, place, list);
    mark_cells(marks, list);
}

// The same where one of the processor's tiles takes the message, by its slot's byte; the list has room for all of a message's cells.
fn mark_brought(
    table: &Table,
    place: MessageSlot,
    b: usize,
    side: u8,
    list: &mut [u16],
    marks: &mut [u8],
)
    requires sized { FoundIn table.now.layout.sizes.route table.now.layout.nest place.number place }
    requires side_value { side ≡ side_of table.now.layout.sizes.route table.now.layout.nest b (box_tile table.now.layout.nest (place.slot / ways table.now.layout.sizes.route table.now.layout.nest)) (place.slot % ways table.now.layout.sizes.route table.now.layout.nest) }
    requires words_in_bounds { (place.words ≤ length list.old) × (length marks.old ≡ cells table.now.layout.nest) }
    ensures { marks.new
        ≡ pick (eqb (taker_at (plan_of_table table.now) place.number) b)
        (set_all marks.old (held_by (plan_of_table table.now) place.number) 1) marks.old }
{
    if is_taker(side) {
        let words = place.words;
        mark_held(table, place, &mut list[0..words], marks);
    }
}

// Marks the cells that messages to the processor's tiles bring, where its own are marked.
fn mark_messages(table: &Table, b: usize, sides: &[u8], list: &mut [u16], marks: &mut [u8])
    requires list_len { length list.old ≡ 16384 }
    requires sides_len { (length sides.now ≡ 7168) × Sided table.now.layout.sizes.route table.now.layout.nest b ((plan_of_table table.now).tiles * table.now.layout.sizes.ways) sides.now }
    requires marks_value { marks.old ≡ tabulate (λ c. one (owns (plan_of_table table.now) b c)) (cells table.now.layout.nest) }
    ensures { marks.new ≡ tabulate (λ c. one (keeps (plan_of_table table.now) b c)) (cells table.now.layout.nest) }
{
    let slots = table.tiles_of() * table.layout.sizes.ways;
    let mut number = 0;
    let mut offset = 0;
    for slot in 0..slots {
        let words = usize::from(table.lens[slot]);
        if words != 0 {
            let place = MessageSlot {
                slot,
                number,
                offset,
                words,
            };
            mark_brought(table, place, b, sides[slot], list, marks);
            number += 1;
        }
        offset += words;
    }
}

// Marks the cells that the processor keeps words of: these, and those that a message to one of its tiles brings.
pub fn mark_kept(table: &Table, b: usize, marks: &mut [u8])
    requires { (b < processors table.now.layout.nest) × (length marks.old ≡ cells table.now.layout.nest) }
    ensures { marks.new ≡ tabulate (λ c. one (keeps (plan_of_table table.now) b c)) (cells table.now.layout.nest) }
{
    mark_own(&table.layout, b, marks);
    let mut sides = [0u8; MOST_MESSAGES];
    fill_sides(table, b, &mut sides);
    let mut list = [0u16; MOST_CELLS];
    mark_messages(table, b, &sides, &mut list, marks);
}

// ---- words, where the marked cells' ranks say

// How many cells are marked before this one, where the rank of another is known: cells of a list mostly lie side by side.
fn rank_by(marks: &[u8], counts: &[u32; BLOCKS], known: usize, at: usize, c: usize) -> usize
    requires counted { Counted marks.now counts.now × ((c ≤ length marks.now) × (length marks.now ≤ 16384)) }
    requires at_value { at ≡ rank_at marks.now known }
    ensures { result ≡ rank_at marks.now c }
{
    if c == known {
        return at;
    }
    rank(marks, counts, c)
}

// The words of these cells into the part.
pub fn take(marks: &[u8], counts: &[u32; BLOCKS], cells: &[u16], memory: &mut [u32], words: &[u32])
    requires { Listed marks.now counts.now cells.now memory.old words.now }
    ensures { memory.new
        ≡ pack (unpack (spread_out marks.now memory.old) cells.now words.now)
        (marked_cells marks.now) }
{
    let mut known = 0;
    let mut at = 0;
    for (i, &cell) in cells.iter().enumerate() {
        let c = usize::from(cell);
        at = rank_by(marks, counts, known, at, c);
        memory[at] = words[i];
        known = c + 1;
        at += 1;
    }
}

// And out of it.
pub fn give(marks: &[u8], counts: &[u32; BLOCKS], cells: &[u16], memory: &[u32], words: &mut [u32])
    requires { Listed marks.now counts.now cells.now memory.now words.old }
    ensures { words.new ≡ pack (spread_out marks.now memory.now) cells.now }
{
    let mut known = 0;
    let mut at = 0;
    for (i, &cell) in cells.iter().enumerate() {
        let c = usize::from(cell);
        at = rank_by(marks, counts, known, at, c);
        words[i] = memory[at];
        known = c + 1;
        at += 1;
    }
}

// ---- messages

// Whether the processor sends or takes the message, as a word, by its slot's byte.
fn handled_one(layout: &Layout, place: MessageSlot, b: usize, side: u8) -> u32
    requires routed { Routed layout.now.nest layout.now.sizes }
    requires sized { FoundIn layout.now.sizes.route layout.now.nest place.number place }
    requires side_value { side ≡ side_of layout.now.sizes.route layout.now.nest b (box_tile layout.now.nest (place.slot / ways layout.now.sizes.route layout.now.nest)) (place.slot % ways layout.now.sizes.route layout.now.nest) }
    ensures { result ≡ one (handles (plan_of_layout layout.now) b place.number) }
{
    if side == 0 { 0 } else { 1 }
}

// For each message, and behind the last one, how many messages the processor handles before it, and how many words they have, by the slots' bytes.
fn fill_ranks(
    table: &Table,
    b: usize,
    sides: &[u8],
    ordinals: &mut [u32; MESSAGE_ENDS],
    starts: &mut [u32; MESSAGE_ENDS],
)
    requires sides_len { (length sides.now ≡ 7168) × Sided table.now.layout.sizes.route table.now.layout.nest b ((plan_of_table table.now).tiles * table.now.layout.sizes.ways) sides.now }
    requires ordinals_len { (length ordinals.old ≡ 7169) × (length starts.old ≡ 7169) }
    ensures { (m : ℕ) → m ≤ count (plan_of_table table.now) → (get_or ordinals.new m 0 ≡ rank_of (plan_of_table table.now) b m)
        × (get_or starts.new m 0 ≡ mail_at (plan_of_table table.now) b m) }
{
    let slots = table.tiles_of() * table.layout.sizes.ways;
    let mut number = 0;
    let mut offset = 0;
    let mut rank = 0;
    let mut at = 0;
    for slot in 0..slots {
        let words = usize::from(table.lens[slot]);
        ordinals[number] = rank;
        starts[number] = at;
        if words != 0 {
            let place = MessageSlot {
                slot,
                number,
                offset,
                words,
            };
            let own = handled_one(&table.layout, place, b, sides[slot]);
            number += 1;
            rank += own;
            at += own * (words as u32);
        }
        offset += words;
    }
    ordinals[number] = rank;
    starts[number] = at;
}

// The same of the table.
pub fn fill_handled(
    table: &Table,
    b: usize,
    ordinals: &mut [u32; MESSAGE_ENDS],
    starts: &mut [u32; MESSAGE_ENDS],
)
    requires b_bound { b < processors table.now.layout.nest }
    requires ordinals_len { (length ordinals.old ≡ 7169) × (length starts.old ≡ 7169) }
    ensures { (m : ℕ) → m ≤ count (plan_of_table table.now) → (get_or ordinals.new m 0 ≡ rank_of (plan_of_table table.now) b m)
        × (get_or starts.new m 0 ≡ mail_at (plan_of_table table.now) b m) }
{
    let mut sides = [0u8; MOST_MESSAGES];
    fill_sides(table, b, &mut sides);
    fill_ranks(table, b, &sides, ordinals, starts);
}
