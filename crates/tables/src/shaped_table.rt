// The table of a nest with bounds, filled once in a call: the tiles that exist, their processors and the lengths of their parcels; and what
// is found by it. A tile's number is its place among the tiles that exist; its number in the box is what geometry goes by.
ghost use Rattle.std.specs.Prelude.{◌≡◌, ◌≢◌, true, false, ℕ, ◌+◌, ◌*◌, ◌≤◌, ◌<◌, length, get_or, replicate, eqb, IfSome};
ghost use Rattle.machine.specs.Plan.{count, tiles_of};
ghost use Rattle.nest.specs.Accepted.{Accepted};
ghost use Rattle.nest.specs.Nest.{box_tiles, processors};
ghost use Rattle.nest.specs.Places.{tile_place};
ghost use Rattle.nest.specs.Shape.{exists, tiles};
ghost use Rattle.plan.specs.declared.Route.TheVariants.{Direct};
ghost use Rattle.plan.specs.Geometry.{processor_of};
ghost use Rattle.plan.specs.Messages.{directions};
ghost use Rattle.plan.specs.Shaped.{box_tile, shaped_message, shaped_slot_parcel, shaped_slots, plan_of};
ghost use Rattle.layout.specs.Places.{Has};
ghost use Rattle.tables.specs.scans.Scans.{Found};
ghost use Rattle.parcels.specs.shaped.Parcels.{Farthest};
ghost use Rattle.tables.specs.shaped_table.Table.{Marks, Tiles, Owned, Like, Filling, ShapedTable, Steps, end_of, Ranged, at_end};
ghost use Rattle.tables.specs.shaped_table.Lines.{OneProcessor, Lined};
ghost use Rattle.tables.specs.shaped_table.Moves.{Moves};

mod rows; // rows.rt: rows of tiles, and which of their tiles are like an earlier one

use crate::scans::{MessageSlot, message_of};
use crate::{COUNT_AT, OWNERS_AT, TABLE_WORDS};
use layout::Layout;
use nest::{MOST_CELLS, MOST_MESSAGES, Nest};
use rows::{Move, TileRow, line_of, move_of};
use std::ops::Range;

// A processor, and where in the box a row of its tiles along the last dimension ends.
#[derive(Clone, Copy)]
struct Owner {
    number: usize,
    end: usize,
}

// Marks the tiles of the box that hold a cell of the shape.
fn mark_tiles(nest: Nest, marks: &mut [u8])
    requires { Accepted nest × (marks.old ≡ replicate 16384 0) }
    ensures { Marks nest marks.new }
{
    let rows = nest::row_count(nest);
    for q in 0..rows {
        nest::mark_row(nest, q, marks);
    }
}

// Whether a tile of the box is marked.
fn is_marked(nest: Nest, marks: &[u8], u: usize) -> bool
    requires { Accepted nest × (Marks nest marks.now × (u < box_tiles nest)) }
    ensures { result ≡ exists nest u }
{
    marks[u] > 0
}

// Lists the marked tiles, and says how many there are.
fn list_tiles(layout: &Layout, marks: &[u8], lens: &mut [u16; TABLE_WORDS])
    requires { Marks layout.now.nest marks.now × (length lens.old ≡ 9217) }
    ensures { Tiles layout.now.nest lens.new }
{
    let n = layout.sizes.tiles;
    let mut count = 0;
    for u in 0..n {
        if is_marked(layout.nest, marks, u) {
            lens[MOST_MESSAGES + count] = u as u16;
            count += 1;
        }
    }
    lens[COUNT_AT] = count as u16;
}

// How many tiles there are, by the table.
pub fn tiles_of(nest: Nest, lens: &[u16; TABLE_WORDS]) -> usize
    requires { Accepted nest × Tiles nest lens.now }
    ensures { (result ≡ tiles nest) × (result ≤ 1024) }
{
    lens[COUNT_AT] as usize
}

// A tile's number in the box.
pub fn box_of(nest: Nest, lens: &[u16; TABLE_WORDS], tile: usize) -> usize
    requires { Accepted nest × (Tiles nest lens.now × (tile < tiles nest)) }
    ensures { (result ≡ box_tile nest tile) × (result < box_tiles nest) }
{
    lens[MOST_MESSAGES + tile] as usize
}

// A tile's processor.
pub fn owner_of(nest: Nest, lens: &[u16; TABLE_WORDS], tile: usize) -> usize
    requires { Accepted nest × (Owned nest lens.now (tiles nest) × (tile < tiles nest)) }
    ensures { (result ≡ processor_of nest (box_tile nest tile)) × (result < processors nest) }
{
    lens[OWNERS_AT + tile] as usize
}

// The processor of a tile of the box, and the end of its row; from this tile on those below the old end have the old one.
fn owner_at(layout: &Layout, old: Owner, tile: usize) -> Owner
    requires { (tile < box_tiles layout.now.nest) × OneProcessor layout.now.nest tile old.number old.end }
    ensures { (result.number ≡ processor_of layout.now.nest tile) × ((result.number < processors layout.now.nest) × OneProcessor layout.now.nest tile result.number result.end) }
{
    if tile < old.end {
        return old;
    }
    let across = layout.sizes.across;
    let n = across[layout.nest.dimensions - 1];
    Owner {
        number: layout.processor_of(tile),
        end: tile - tile % n + n,
    }
}

// The processor of each tile: along the last dimension, which is not spread, it is the same.
fn fill_owners(layout: &Layout, lens: &mut [u16; TABLE_WORDS])
    requires { Tiles layout.now.nest lens.old }
    ensures { Owned layout.now.nest lens.new (tiles layout.now.nest) }
{
    let n = tiles_of(layout.nest, lens);
    let mut owner = Owner { number: 0, end: 0 };
    for t in 0..n {
        let tile = box_of(layout.nest, lens, t);
        owner = owner_at(layout, owner, tile);
        lens[OWNERS_AT + t] = owner.number as u16;
    }
}

// The length of a tile's parcel along a way, by its number in the box and its place there: none where the way stays on the processor
// or leads beyond the last tile.
fn slot_length(layout: &Layout, most: [usize; 4], tile: usize, at: [usize; 4], way: usize) -> usize
    requires sized { (layout.now.sizes.route ≡ Direct) × ((tile < box_tiles layout.now.nest) × (way < directions layout.now.nest)) }
    requires farthest { Farthest layout.now.nest most × Has at (tile_place layout.now.nest tile) layout.now.nest.dimensions }
    ensures { ((t : ℕ) → t < tiles layout.now.nest → box_tile layout.now.nest t ≡ tile
        → result ≡ length (shaped_slot_parcel layout.now.nest (t * directions layout.now.nest + way))) × (result ≤ 16384) }
{
    let ahead = layout.along_of(way);
    let counts = layout.nest.counts;
    if !parcels::leaves(counts, ahead, layout.nest.spread) {
        return 0;
    }
    let across = layout.sizes.across;
    if parcels::beyond_last(across, at, ahead, layout.nest.spread) {
        return 0;
    }
    parcels::shaped::count_of(layout, most, tile, at, way)
}

// The lengths of a tile's parcels, counted.
fn count_tile(layout: &Layout, lens: &mut [u16; TABLE_WORDS], most: [usize; 4], tile: usize)
    requires sized { (layout.now.sizes.route ≡ Direct) × Farthest layout.now.nest most }
    requires tile_bound { (tile < tiles layout.now.nest) × Filling layout.now.nest lens.old (tile * directions layout.now.nest) }
    ensures { Filling layout.now.nest lens.new ((tile + 1) * directions layout.now.nest) }
{
    let n = layout.sizes.ways;
    let number = box_of(layout.nest, lens, tile);
    let at = layout.place_of_tile(number);
    for way in 0..n {
        let length = slot_length(layout, most, number, at, way);
        lens[tile * n + way] = length as u16;
    }
}

// The row of a tile of the box: the old one, where it is not at its end.
fn line_at(
    layout: &Layout,
    most: [usize; 4],
    by: Option<Move>,
    old: TileRow,
    tile: usize,
) -> TileRow
    requires sized { (tile < box_tiles layout.now.nest) × (Farthest layout.now.nest most × IfSome by (λ m. Moves layout.now.nest m.steps m.far)) }
    requires lined { Lined layout.now.nest old.far old.from old.to }
    ensures { Lined layout.now.nest result.far result.from result.to }
{
    if tile < old.end {
        return old;
    }
    line_of(layout, most, by, tile)
}

// The first tile from one on, before another, that is not further before it in the box than a move leads; the other, if there is none.
fn back_of(
    nest: Nest,
    lens: &[u16; TABLE_WORDS],
    by: Option<Move>,
    from: usize,
    tile: usize,
) -> usize
    requires tile_bound { Accepted nest × ((tile < tiles nest) × (Tiles nest lens.now × (from ≤ tile))) }
    requires moves { IfSome by (λ m. Moves nest m.steps m.far) }
    ensures { result ≤ tile }
{
    let Some(by) = by else {
        return tile;
    };
    let number = box_of(nest, lens, tile);
    for p in from..tile {
        let before = box_of(nest, lens, p);
        if before + by.far >= number {
            return p;
        }
    }
    tile
}

// The tile that a tile may be like: the one before it, where its row goes by that one, else the one a move before it.
fn model_of(far: usize, tile: usize, back: usize) -> usize
    requires { back ≤ tile }
    ensures { result ≤ tile }
{
    if far != 1 {
        return back;
    }
    if tile == 0 {
        return 0;
    }
    tile - 1
}

// Whether a tile's parcels are known to be as long as those of tile p: its row says so of the tile so far before it.
fn is_like(nest: Nest, lens: &[u16; TABLE_WORDS], line: TileRow, tile: usize, p: usize) -> bool
    requires { Accepted nest × ((tile < tiles nest) × (Tiles nest lens.now × (Lined nest line.far line.from line.to × (p ≤ tile)))) }
    ensures { result ≡ true → Like nest tile p }
{
    if p == tile {
        return false;
    }
    let number = box_of(nest, lens, tile);
    if number < line.from {
        return false;
    }
    if number >= line.to {
        return false;
    }
    let before = box_of(nest, lens, p);
    before + line.far == number
}

// The lengths of a tile's parcels, as those of tile p.
fn copy_tile(layout: &Layout, lens: &mut [u16; TABLE_WORDS], tile: usize, p: usize)
    requires sized { (layout.now.sizes.route ≡ Direct) × Like layout.now.nest tile p }
    requires tile_bound { (tile < tiles layout.now.nest) × Filling layout.now.nest lens.old (tile * directions layout.now.nest) }
    ensures { Filling layout.now.nest lens.new ((tile + 1) * directions layout.now.nest) }
{
    let n = layout.sizes.ways;
    let from = p * n;
    lens.copy_within(from..from + n, tile * n);
}

// The lengths of a tile's parcels, those of the tiles before it being in the table.
fn fill_tile(
    layout: &Layout,
    lens: &mut [u16; TABLE_WORDS],
    most: [usize; 4],
    line: TileRow,
    tile: usize,
    back: usize,
)
    requires sized { (layout.now.sizes.route ≡ Direct) × (Farthest layout.now.nest most × Lined layout.now.nest line.far line.from line.to) }
    requires tile_bound { (tile < tiles layout.now.nest) × ((back ≤ tile) × Filling layout.now.nest lens.old (tile * directions layout.now.nest)) }
    ensures { Filling layout.now.nest lens.new ((tile + 1) * directions layout.now.nest) }
{
    let p = model_of(line.far, tile, back);
    if is_like(layout.nest, lens, line, tile, p) {
        copy_tile(layout, lens, tile, p);
        return;
    }
    count_tile(layout, lens, most, tile);
}

// The whole table.
pub fn fill(layout: &Layout, lens: &mut [u16; TABLE_WORDS])
    requires { (layout.now.sizes.route ≡ Direct) × (length lens.old ≡ 9217) }
    ensures { ShapedTable layout.now.nest lens.new }
{
    let mut marks = [0u8; MOST_CELLS];
    mark_tiles(layout.nest, &mut marks);
    list_tiles(layout, &marks, lens);
    fill_owners(layout, lens);
    let most = parcels::shaped::farthest(layout.nest);
    let n = tiles_of(layout.nest, lens);
    let by = move_of(layout);
    let mut line = TileRow {
        from: 0,
        to: 0,
        far: 0,
        end: 0,
    };
    let mut back = 0;
    for tile in 0..n {
        let number = box_of(layout.nest, lens, tile);
        line = line_at(layout, most, by, line, number);
        back = back_of(layout.nest, lens, by, back, tile);
        fill_tile(layout, lens, most, line, tile, back);
    }
}

// How many tiles the processor has.
pub fn tile_count(nest: Nest, lens: &[u16; TABLE_WORDS], processor: usize) -> usize
    requires { Accepted nest × ShapedTable nest lens.now }
    ensures { (result ≡ length (tiles_of (plan_of Direct nest) processor)) × (result ≤ 1024) }
{
    let n = tiles_of(nest, lens);
    let mut count = 0;
    for t in 0..n {
        let owner = owner_of(nest, lens, t);
        if owner == processor {
            count += 1;
        }
    }
    count
}

// Its tile after so many finished ones.
pub fn tile_at(nest: Nest, lens: &[u16; TABLE_WORDS], processor: usize, finished: usize) -> usize
    requires accepted { Accepted nest × ShapedTable nest lens.now }
    requires finished_in_bounds { finished < length (tiles_of (plan_of Direct nest) processor) }
    ensures { (result ≡ get_or (tiles_of (plan_of Direct nest) processor) finished 0) × (result < tiles nest) }
{
    let n = tiles_of(nest, lens);
    let mut count = 0;
    for t in 0..n {
        let owner = owner_of(nest, lens, t);
        if owner == processor {
            if count == finished {
                return t;
            }
            count += 1;
        }
    }
    unreachable!()
}

// How far the box's number of t plus v is from that of t, along each way.
fn steps_of(layout: &Layout) -> [usize; 8]
    requires { layout.now.sizes.route ≡ Direct }
    ensures { Steps layout.now.nest result }
{
    layout.steps_of(1)
}

// Whether a slot that is a message has the tile at an end: 0 the sender, else the taker, the first tile that exists at or after t plus v.
fn has_end(
    layout: &Layout,
    lens: &[u16; TABLE_WORDS],
    steps: [usize; 8],
    slot: usize,
    tile: usize,
    side: usize,
) -> bool
    requires sized { (layout.now.sizes.route ≡ Direct) × (ShapedTable layout.now.nest lens.now × Steps layout.now.nest steps) }
    requires slot_bound { (slot < shaped_slots layout.now.nest) × (tile < tiles layout.now.nest) }
    ensures { 0 < length (shaped_slot_parcel layout.now.nest slot) → result ≡ eqb (end_of side (shaped_message layout.now.nest slot)) tile }
{
    let sender = slot / layout.sizes.ways;
    if side == 0 {
        return sender == tile;
    }
    let from = box_of(layout.nest, lens, sender);
    let number = from + steps[slot % layout.sizes.ways];
    let own = box_of(layout.nest, lens, tile);
    if number > own {
        return false;
    }
    if tile == 0 {
        return true;
    }
    let before = box_of(layout.nest, lens, tile - 1);
    before < number
}

// Whether a slot is a message that has the tile at that end.
fn sends_at(
    layout: &Layout,
    lens: &[u16; TABLE_WORDS],
    steps: [usize; 8],
    slot: usize,
    tile: usize,
    side: usize,
) -> bool
    requires sized { (layout.now.sizes.route ≡ Direct) × (ShapedTable layout.now.nest lens.now × Steps layout.now.nest steps) }
    requires slot_bound { (slot < shaped_slots layout.now.nest) × (tile < tiles layout.now.nest) }
    ensures { (result ≡ true → (0 < length (shaped_slot_parcel layout.now.nest slot)) × (end_of side (shaped_message layout.now.nest slot) ≡ tile))
        × (result ≡ false → 0 < length (shaped_slot_parcel layout.now.nest slot) → end_of side (shaped_message layout.now.nest slot) ≢ tile) }
{
    if lens[slot] == 0 {
        return false;
    }
    has_end(layout, lens, steps, slot, tile, side)
}

// The slots among which those with the tile at an end stand: the tile's own ones for the sender, else all up to these, since no tile
// takes a message of a later one.
fn range_of(layout: &Layout, tile: usize, side: usize) -> Range<usize>
    requires { (layout.now.sizes.route ≡ Direct) × (tile < tiles layout.now.nest) }
    ensures { Ranged layout.now.nest side tile result.start result.end }
{
    let first = tile * layout.sizes.ways;
    let end = first + layout.sizes.ways;
    if side == 0 {
        return first..end;
    }
    0..end
}

// How many messages have the tile at this end.
pub fn count_at(layout: &Layout, lens: &[u16; TABLE_WORDS], tile: usize, side: usize) -> usize
    requires { (layout.now.sizes.route ≡ Direct) × (ShapedTable layout.now.nest lens.now × (tile < tiles layout.now.nest)) }
    ensures { (result ≡ length (at_end side (plan_of Direct layout.now.nest) tile)) × (result ≤ 7168) }
{
    let steps = steps_of(layout);
    let Range { start, end } = range_of(layout, tile, side);
    let mut count = 0;
    for s in start..end {
        if sends_at(layout, lens, steps, s, tile, side) {
            count += 1;
        }
    }
    count
}

// The j-th of them.
pub fn nth_at(
    layout: &Layout,
    lens: &[u16; TABLE_WORDS],
    tile: usize,
    side: usize,
    j: usize,
) -> MessageSlot
    requires sized { (layout.now.sizes.route ≡ Direct) × (ShapedTable layout.now.nest lens.now × (tile < tiles layout.now.nest)) }
    requires j_in_bounds { j < length (at_end side (plan_of Direct layout.now.nest) tile) }
    ensures { Found (shaped_message layout.now.nest) (shaped_slots layout.now.nest) (get_or (at_end side (plan_of Direct layout.now.nest) tile) j 0) result }
{
    let steps = steps_of(layout);
    let Range { start, end } = range_of(layout, tile, side);
    let mut seen = 0;
    for s in start..end {
        if sends_at(layout, lens, steps, s, tile, side) {
            if seen == j {
                return message_of(lens, s);
            }
            seen += 1;
        }
    }
    unreachable!()
}

// The tile that takes a slot's message.
pub fn taker_of(layout: &Layout, lens: &[u16; TABLE_WORDS], slot: usize) -> usize
    requires { (layout.now.sizes.route ≡ Direct) × (ShapedTable layout.now.nest lens.now × (slot < shaped_slots layout.now.nest)) }
    ensures { 0 < length (shaped_slot_parcel layout.now.nest slot) → result ≡ end_of 1 (shaped_message layout.now.nest slot) }
{
    let steps = steps_of(layout);
    let from = box_of(layout.nest, lens, slot / layout.sizes.ways);
    let number = from + steps[slot % layout.sizes.ways];
    let n = tiles_of(layout.nest, lens);
    for t in 0..n {
        let own = box_of(layout.nest, lens, t);
        if own >= number {
            return t;
        }
    }
    n
}
