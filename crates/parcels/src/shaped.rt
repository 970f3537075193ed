// Nests with bounds, by rows and spans: the cells of a slot counted, its parcel packed and unpacked.
ghost use Rattle.std.specs.Prelude.{◌≡◌, ℕ, ◌+◌, ◌-◌, ◌≤◌, ◌<◌, length, get_or};
ghost use Rattle.base.specs.Lists.{pack, unpack};
ghost use Rattle.nest.specs.Accepted.{Accepted};
ghost use Rattle.nest.specs.Nest.{length_of, component, cells, box_tiles};
ghost use Rattle.nest.specs.Places.{tile_place};
ghost use Rattle.nest.specs.Spans.{last, Narrow, Spans};
ghost use Rattle.plan.specs.declared.Route.TheVariants.{Direct};
ghost use Rattle.plan.specs.Messages.{ways};
ghost use Rattle.layout.specs.Regions.{Region};
ghost use Rattle.plan.specs.Shaped.{shaped_parcel};
ghost use Rattle.layout.specs.Places.{nth, Has};
ghost use Rattle.layout.specs.CellRows.{Given};
ghost use Rattle.parcels.specs.Windows.{window_of, RowEnd};
ghost use Rattle.parcels.specs.Sendings.{BoxOfRows};
ghost use Rattle.parcels.specs.shaped.Runs.{RunIs, reaches_place, comes_shaped, RunsAre};
ghost use Rattle.parcels.specs.shaped.Parcels.{Farthest, Near, Rows, RowRuns};

use crate::{Block, Sending, Window};
use layout::Layout;
use nest::{Interval, Nest};

// A row: the place of its first cell, and the runs in it that hold a slot's cells, each from one last component on, below another.
#[derive(Clone, Copy)]
pub struct Reached {
    pub place: [usize; 4],
    pub starts: [usize; 8],
    pub ends: [usize; 8],
    pub runs: usize,
}

// The row that distance e reaches from the row of a place, as the place of one of its cells.
fn ahead_of(nest: Nest, components: &[usize; 32], at: [usize; 4], e: usize) -> [usize; 4]
    requires accepted { Accepted nest × ((e < nest.distances) × Given nest components.now) }
    requires by_index { (j : ℕ) → j < nest.dimensions → get_or at j 0 < 1024 }
    ensures { ((j : ℕ) → j < last nest → get_or result j 0 ≡ get_or at j 0 + component nest e j) × Narrow nest result }
{
    let last = nest.dimensions - 1;
    let mut to = at;
    for j in 0..last {
        to[j] = at[j] + components[4 * e + j];
    }
    to
}

// Where in the row of a place distance e puts a cell of the shape into the shape: `own` is the row's span, below `limit` the
// distance puts a cell into the window.
fn reach_of(
    nest: Nest,
    components: &[usize; 32],
    at: [usize; 4],
    own: Interval,
    limit: usize,
    e: usize,
) -> Interval
    requires accepted { Accepted nest × ((e < nest.distances) × Given nest components.now) }
    requires by_index { ((j : ℕ) → j < nest.dimensions → get_or at j 0 < 1024) × Spans nest at own }
    ensures { (w : Region) → w.high (last nest) ≤ length_of nest (last nest) → RowEnd nest w (nth at) e limit
        → RunIs nest (nth at) (reaches_place nest w e) result.from result.to }
{
    if limit == 0 {
        return Interval { from: 0, to: 0 };
    }
    let to = ahead_of(nest, components, at, e);
    let far = nest::span_of(&nest, &to);
    let last = nest.dimensions - 1;
    let d = components[4 * e + last];
    Interval {
        from: own.from.max(far.from.saturating_sub(d)),
        to: own.to.min(limit).min(far.to.saturating_sub(d)),
    }
}

// The row of a place: the runs of those distances that put some cell of it there; `own` is its span.
fn runs_of(
    nest: Nest,
    components: &[usize; 32],
    window: Window,
    at: [usize; 4],
    own: Interval,
) -> Reached
    requires accepted { Accepted nest × (Given nest components.now
        × ((get_or window.low (last nest) 0 ≡ 0) × (get_or window.high (last nest) 0 ≤ length_of nest (last nest)))) }
    requires by_index { ((j : ℕ) → j < nest.dimensions → get_or at j 0 < 1024) × Spans nest at own }
    ensures { (result.place ≡ at) × RunsAre nest (nth at) (comes_shaped nest (window_of window)) result.runs result.starts result.ends }
{
    let mut starts = [0; 8];
    let mut ends = [0; 8];
    let mut runs = 0;
    for e in 0..nest.distances {
        let limit = crate::end_in_row(nest, components, window, &at, e);
        let run = reach_of(nest, components, at, own, limit, e);
        if run.from < run.to {
            starts[runs] = run.from;
            ends[runs] = run.to;
            runs += 1;
        }
    }
    Reached {
        place: at,
        starts,
        ends,
        runs,
    }
}

// Row r of a slot's rows.
pub fn row_of(nest: Nest, components: &[usize; 32], rows: Sending, r: usize) -> Reached
    requires accepted { Accepted nest × (Given nest components.now × (BoxOfRows nest rows × (r < rows.rows))) }
    requires nest_in_bounds { get_or rows.window.high (last nest) 0 ≤ length_of nest (last nest) }
    ensures { RowRuns nest rows r result.place result.runs result.starts result.ends }
{
    let block = rows.block;
    let at = layout::place(block.lengths, block.corner, r, nest.dimensions - 1);
    let own = nest::span_of(&nest, &at);
    runs_of(nest, components, rows.window, at, own)
}

// How far the distances go in each dimension.
pub fn farthest(nest: Nest) -> [usize; 4]
    requires { Accepted nest }
    ensures { Farthest nest result }
{
    let mut most = [0_usize; 4];
    for (i, component) in nest.components[..4 * nest.distances].iter().enumerate() {
        most[i % 4] = most[i % 4].max(*component);
    }
    most
}

// The box without the rows that no distance takes to the window, being too far before it; one row at least is left.
fn near(nest: Nest, sending: Sending, most: [usize; 4]) -> Sending
    requires { Accepted nest × (BoxOfRows nest sending × Farthest nest most) }
    ensures { Near nest sending result }
{
    let low = sending.window.low;
    let from = sending.block.corner;
    let sides = sending.block.lengths;
    let mut corner = [0; 4];
    let mut lengths = [0; 4];
    for j in 0..nest.dimensions {
        let before = low[j].saturating_sub(most[j]).saturating_sub(from[j]);
        let over = before.min(sides[j] - 1);
        corner[j] = from[j] + over;
        lengths[j] = sides[j] - over;
    }
    let rows = layout::product(lengths, nest.dimensions - 1);
    Sending {
        block: Block { corner, lengths },
        window: sending.window,
        rows,
        width: sending.width,
    }
}

// The rows that hold the cells of a tile of the box and a way: `at` is the tile's place, `most` how far the distances go.
fn rows_of(layout: &Layout, most: [usize; 4], tile: usize, at: [usize; 4], way: usize) -> Sending
    requires sized { (layout.now.sizes.route ≡ Direct) × ((tile < box_tiles layout.now.nest) × (way < ways Direct layout.now.nest)) }
    requires farthest { Farthest layout.now.nest most × Has at (tile_place layout.now.nest tile) layout.now.nest.dimensions }
    ensures { Rows layout.now.nest tile (way + 1) result }
{
    let slot = tile * layout.sizes.ways + way;
    let ahead = layout.along_of(way);
    let sending = crate::sending_of(layout, slot, at, ahead);
    near(layout.nest, sending, most)
}

// How many cells of the shape in a tile of the box some distance puts into the shape, along a way.
pub fn count_of(layout: &Layout, most: [usize; 4], tile: usize, at: [usize; 4], way: usize) -> usize
    requires sized { (layout.now.sizes.route ≡ Direct) × ((tile < box_tiles layout.now.nest) × (way < ways Direct layout.now.nest)) }
    requires farthest { Farthest layout.now.nest most × Has at (tile_place layout.now.nest tile) layout.now.nest.dimensions }
    ensures { (result ≡ length (shaped_parcel layout.now.nest tile (way + 1))) × (result ≤ 16384) }
{
    let rows = rows_of(layout, most, tile, at, way);
    let components = layout.nest.components;
    let last = layout.nest.dimensions - 1;
    let mut count = 0;
    for r in 0..rows.rows {
        let row = row_of(layout.nest, &components, rows, r);
        count += runs::count_row(
            &row.starts,
            &row.ends,
            row.runs,
            row.place[last],
            rows.width,
        );
    }
    count
}

// The rows that hold the cells of a tile of the box and a way, whose place and distances are looked at here.
pub fn rows_at(layout: &Layout, tile: usize, way: usize) -> Sending
    requires { (layout.now.sizes.route ≡ Direct) × ((tile < box_tiles layout.now.nest) × (way < ways Direct layout.now.nest)) }
    ensures { Rows layout.now.nest tile (way + 1) result }
{
    let at = layout.place_of_tile(tile);
    rows_of(layout, farthest(layout.nest), tile, at, way)
}

// The words of a slot's parcel, row by row.
pub fn pack(layout: &Layout, tile: usize, way: usize, words: &mut [u32], memory: &[u32])
    requires sized { (layout.now.sizes.route ≡ Direct) × ((tile < box_tiles layout.now.nest) × (way < ways Direct layout.now.nest)) }
    requires memory_len { (length memory.now ≡ cells layout.now.nest) × (length words.old ≡ length (shaped_parcel layout.now.nest tile (way + 1))) }
    ensures { words.new ≡ pack memory.now (shaped_parcel layout.now.nest tile (way + 1)) }
{
    let rows = rows_at(layout, tile, way);
    let components = layout.nest.components;
    let last = layout.nest.dimensions - 1;
    let mut count = 0;
    for r in 0..rows.rows {
        let row = row_of(layout.nest, &components, rows, r);
        let number = layout::rank(layout.nest.lengths, row.place, layout.nest.dimensions);
        count = runs::row_words::pack_row(
            words,
            memory,
            &row.starts,
            &row.ends,
            row.runs,
            number,
            row.place[last],
            rows.width,
            count,
        );
    }
}

// Each word of a slot's parcel to its cell, row by row.
pub fn unpack(layout: &Layout, tile: usize, way: usize, memory: &mut [u32], words: &[u32])
    requires sized { (layout.now.sizes.route ≡ Direct) × ((tile < box_tiles layout.now.nest) × (way < ways Direct layout.now.nest)) }
    requires memory_len { (length memory.old ≡ cells layout.now.nest) × (length words.now ≡ length (shaped_parcel layout.now.nest tile (way + 1))) }
    ensures { memory.new ≡ unpack memory.old (shaped_parcel layout.now.nest tile (way + 1)) words.now }
{
    let rows = rows_at(layout, tile, way);
    let components = layout.nest.components;
    let last = layout.nest.dimensions - 1;
    let mut count = 0;
    for r in 0..rows.rows {
        let row = row_of(layout.nest, &components, rows, r);
        let number = layout::rank(layout.nest.lengths, row.place, layout.nest.dimensions);
        count = runs::row_words::unpack_row(
            memory,
            words,
            &row.starts,
            &row.ends,
            row.runs,
            number,
            row.place[last],
            rows.width,
            count,
        );
    }
}
