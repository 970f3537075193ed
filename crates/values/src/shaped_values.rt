// Values of a nest with bounds: of a tile, of the sequential sweep, and collected, row by row.
//
// The shape cuts a row to one span, and in a row each distance reads cells of the shape from one component on, below another:
// so what a cell reads is told by comparing its last component with two numbers a distance.
ghost use Rattle.std.specs.Prelude.{◌≡◌, true, [], ℕ, ◌+◌, ◌*◌, ◌-◌, ◌≤◌, ◌<◌, length, get_or};
ghost use Rattle.base.specs.Tests.{pick};
ghost use Rattle.base.specs.Lists.{store_all};
ghost use Rattle.machine.specs.Machine.{state_of, sweep, collected};
ghost use Rattle.nest.specs.Accepted.{Accepted};
ghost use Rattle.nest.specs.Nest.{length_of, component, cells, processors, box_tiles};
ghost use Rattle.nest.specs.Spans.{last, Narrow};
ghost use Rattle.plan.specs.declared.Route.TheVariants.{Direct};
ghost use Rattle.plan.specs.Shaped.{plan_of, shaped_cells, shaped_value};
ghost use Rattle.layout.specs.Places.{Located};
ghost use Rattle.layout.specs.CellRows.{Given, row_of};
ghost use Rattle.values.specs.row_values.Reads.{Backs};
ghost use Rattle.values.specs.shaped_values.Rows.{inside_only, held_word, between, Overlaps, ReadsRun, ReadsRuns, mixed_word, mixed_along, Readable};

use crate::row_values::Body;
use kernels::{closed, word_of};
use layout::{Cell, Layout};
use nest::{Interval, Nest};

// Where each distance reads in a row: last components from one number on, below another.
#[derive(Clone, Copy)]
pub struct Reads {
    pub firsts: [usize; 8],
    pub ends: [usize; 8],
}

// ---- words

// The word that a distance gives to a cell.
fn word_at(
    memory: &[u32],
    cell: usize,
    component: usize,
    first: usize,
    end: usize,
    back: usize,
    boundary: u64,
) -> u64
    requires { (cell < length memory.now) × ((boundary < 4294967296)
        × ((length memory.now ≤ 16384) × (between first end component ≡ true → back ≤ cell))) }
    ensures { (result ≡ pick (between first end component) (get_or memory.now (cell - back) 0) boundary) × (result < 4294967296) }
{
    if crate::intervals::has(first, end, component) {
        return memory[cell - back] as u64;
    }
    boundary
}

// The word of a cell, whose source is at `from`.
fn value_at(
    source: &[u32],
    memory: &[u32],
    shift: u64,
    boundary: u64,
    n: usize,
    firsts: &[usize; 8],
    ends: &[usize; 8],
    backs: &[usize; 8],
    weights: &[u64; 8],
    from: usize,
    cell: usize,
    component: usize,
) -> u32
    requires { Readable n firsts.now ends.now backs.now weights.now boundary shift from cell component 1 (length source.now)
        (length memory.now) }
    ensures { result ≡ mixed_word n firsts.now ends.now backs.now weights.now boundary shift
        source.now from component memory.now cell }
{
    let mut total = word_of(source, from);
    for k in 0..n {
        let w = word_at(
            memory, cell, component, firsts[k], ends[k], backs[k], boundary,
        );
        total += weights[k] * w;
    }
    closed(total, shift)
}

// The words of `width` cells of a row, whose source is from `from` on.
pub fn store_row(
    source: &[u32],
    memory: &mut [u32],
    shift: u64,
    boundary: u64,
    n: usize,
    firsts: &[usize; 8],
    ends: &[usize; 8],
    backs: &[usize; 8],
    weights: &[u64; 8],
    from: usize,
    cell: usize,
    component: usize,
    width: usize,
)
    requires { Readable n firsts.now ends.now backs.now weights.now boundary shift from cell component width (length source.now)
        (length memory.old) }
    ensures { memory.new ≡ store_all (mixed_along n firsts.now ends.now backs.now
        weights.now boundary shift source.now from cell component) memory.old (row_of cell width) }
{
    for y in 0..width {
        let v = value_at(
            source,
            memory,
            shift,
            boundary,
            n,
            firsts,
            ends,
            backs,
            weights,
            from + y,
            cell + y,
            component + y,
        );
        memory[cell + y] = v;
    }
}

// ---- what the distances read in a row

// The row that distance e reads from the row of a place, as the place of one of its cells.
fn behind_of(nest: Nest, components: &[usize; 32], at: [usize; 4], e: usize) -> [usize; 4]
    requires accepted { Accepted nest × ((e < nest.distances) × Given nest components.now) }
    requires narrow { Narrow nest at × ((j : ℕ) → j < last nest → component nest e j ≤ get_or at j 0) }
    ensures { ((j : ℕ) → j < last nest → get_or result j 0 ≡ get_or at j 0 - component nest e j) × Narrow nest result }
{
    let last = nest.dimensions - 1;
    let mut to = at;
    for j in 0..last {
        to[j] = at[j] - components[4 * e + j];
    }
    to
}

// Where in the row of a place distance e reads a cell of the shape.
fn read_of(nest: Nest, components: &[usize; 32], at: [usize; 4], e: usize) -> Interval
    requires { Accepted nest × ((e < nest.distances) × (Given nest components.now × Narrow nest at)) }
    ensures { ReadsRun nest at e result.from result.to }
{
    let body = Body {
        dimensions: nest.dimensions,
        distances: nest.distances,
        shift: nest.shift,
        boundary: nest.boundary,
    };
    let d = crate::row_values::first_of(body, components, at, e);
    if d == 1024 {
        return Interval { from: 0, to: 0 };
    }
    let to = behind_of(nest, components, at, e);
    let far = nest::span_of(&nest, &to);
    if far.to <= far.from {
        return Interval { from: 0, to: 0 };
    }
    Interval {
        from: far.from + d,
        to: far.to + d,
    }
}

// The same of each distance.
pub fn reads_of(nest: Nest, components: &[usize; 32], at: [usize; 4]) -> Reads
    requires { Accepted nest × (Given nest components.now × Narrow nest at) }
    ensures { ReadsRuns nest at result.firsts result.ends }
{
    let mut firsts = [0; 8];
    let mut ends = [0; 8];
    let n = nest.distances;
    for e in 0..n {
        let run = read_of(nest, components, at, e);
        firsts[e] = run.from;
        ends[e] = run.to;
    }
    Reads { firsts, ends }
}

// What an interval has of `width` components from `first` on.
pub fn overlap(s: Interval, first: usize, width: usize) -> Interval
    requires { first + width ≤ 1024 }
    ensures { Overlaps s first width result }
{
    let end = s.to.min(first + width);
    if end <= first {
        return Interval {
            from: first,
            to: first,
        };
    }
    if end <= s.from {
        return Interval {
            from: first,
            to: first,
        };
    }
    if s.from <= first {
        return Interval {
            from: first,
            to: end,
        };
    }
    Interval {
        from: s.from,
        to: end,
    }
}

// The values of the cells of a row that are in the shape, from where its first cell is.
fn row(
    nest: Nest,
    source: &[u32],
    memory: &mut [u32],
    components: &[usize; 32],
    back: &[usize; 8],
    weights: &[u64; 8],
    cell: Cell,
    width: usize,
)
    requires accepted { Accepted nest × ((Given nest components.now × (Backs nest back.now × (weights.now ≡ nest.weights)))
        × ((length source.now ≡ cells nest) × (length memory.old ≡ cells nest))) }
    requires located { Located nest cell.number cell × (get_or cell.place (last nest) 0 + width ≤ length_of nest (last nest)) }
    ensures { memory.new ≡ store_all (inside_only nest (shaped_value nest source.now)) memory.old
        (row_of cell.number width) }
{
    let at = cell.place;
    let component = at[nest.dimensions - 1];
    let own = nest::span_of(&nest, &at);
    let kept = overlap(own, component, width);
    let from = kept.from;
    let few = kept.to - from;
    if few == 0 {
        return;
    }
    let reads = reads_of(nest, components, at);
    let firsts = reads.firsts;
    let ends = reads.ends;
    let first = cell.number + (from - component);
    store_row(
        source,
        memory,
        nest.shift,
        nest.boundary,
        nest.distances,
        &firsts,
        &ends,
        back,
        weights,
        first,
        first,
        from,
        few,
    );
}

// ---- a tile, and the sweep

// The values of the cells of the shape in a tile of the box, in index order, row by row.
pub fn calculate(layout: &Layout, source: &[u32], memory: &mut [u32], tile: usize)
    requires { (tile < box_tiles layout.now.nest) × ((length source.now ≡ cells layout.now.nest) × (length memory.old ≡ cells layout.now.nest)) }
    ensures { memory.new ≡ store_all (shaped_value layout.now.nest source.now) memory.old (shaped_cells layout.now.nest tile) }
{
    let bounds = layout.bounds_of(tile);
    let components = layout.nest.components;
    let weights = layout.nest.weights;
    let back = crate::row_values::backs_of(layout.nest, &components);
    let last = layout.nest.dimensions - 1;
    let lengths = bounds.lengths;
    let rows = layout::product(lengths, last);
    let width = lengths[last];
    for r in 0..rows {
        let cell = layout.cell_in(bounds, r * width);
        row(
            layout.nest,
            source,
            memory,
            &components,
            &back,
            &weights,
            cell,
            width,
        );
    }
}

// The boundary's word.
fn boundary_of(nest: Nest) -> u32
    requires { nest.boundary < 4294967296 }
    ensures { result ≡ nest.boundary }
{
    nest.boundary as u32
}

// A row of the nest as its first cell.
fn row_cell(nest: Nest, q: usize, width: usize) -> Cell
    requires { Accepted nest × ((width ≡ length_of nest (last nest)) × (q * width < cells nest)) }
    ensures { Located nest (q * width) result × (get_or result.place (last nest) 0 ≡ 0) }
{
    let at = nest::row_place(nest, q);
    Cell {
        number: q * width,
        place: at,
    }
}

// The sequential sweep: cells of the shape in index order, row by row; the others are the boundary's.
pub fn sweep(layout: &Layout, source: &[u32], grid: &mut [u32])
    requires { (length source.now ≡ cells layout.now.nest) × (length grid.old ≡ cells layout.now.nest) }
    ensures { grid.new ≡ sweep (plan_of Direct layout.now.nest) source.now }
{
    grid.fill(boundary_of(layout.nest));
    let components = layout.nest.components;
    let weights = layout.nest.weights;
    let back = crate::row_values::backs_of(layout.nest, &components);
    let lengths = layout.nest.lengths;
    let width = lengths[layout.nest.dimensions - 1];
    let rows = nest::row_count(layout.nest);
    for q in 0..rows {
        let cell = row_cell(layout.nest, q, width);
        row(
            layout.nest,
            source,
            grid,
            &components,
            &back,
            &weights,
            cell,
            width,
        );
    }
}

// ---- collecting

// The cells of a row of the nest that are in the shape, from the memory of their processor: the last dimension is not spread.
fn copy_row(layout: &Layout, memories: &[u32], grid: &mut [u32], cell: Cell, width: usize)
    requires sized { (length memories.now ≡ processors layout.now.nest * cells layout.now.nest) × (length grid.old ≡ cells layout.now.nest) }
    requires located { Located layout.now.nest cell.number cell × ((get_or cell.place (last layout.now.nest) 0 ≡ 0) × (width ≡ length_of layout.now.nest (last layout.now.nest))) }
    ensures { grid.new ≡ store_all (inside_only layout.now.nest (held_word layout.now.nest memories.now)) grid.old
        (row_of cell.number width) }
{
    let at = cell.place;
    let own = nest::span_of(&layout.nest, &at);
    let kept = overlap(own, 0, width);
    let tile = layout.tile_of(cell.number);
    let processor = layout.processor_of(tile);
    let first = cell.number + kept.from;
    base::copy_part(
        grid,
        memories,
        first,
        processor * layout.sizes.cells + first,
        kept.to - kept.from,
    );
}

// Each cell of the shape from the memory of its tile's processor; the others are the boundary's.
pub fn copy_cells(layout: &Layout, memories: &[u32], grid: &mut [u32])
    requires { (length memories.now ≡ processors layout.now.nest * cells layout.now.nest) × (length grid.old ≡ cells layout.now.nest) }
    ensures { grid.new ≡ collected (plan_of Direct layout.now.nest) (state_of memories.now [] [] []) }
{
    grid.fill(boundary_of(layout.nest));
    let lengths = layout.nest.lengths;
    let width = lengths[layout.nest.dimensions - 1];
    let rows = nest::row_count(layout.nest);
    for q in 0..rows {
        let cell = row_cell(layout.nest, q, width);
        copy_row(layout, memories, grid, cell, width);
    }
}
