// Values in code: a tile and the sequential sweep of the whole grid, by the rows of a box of cells.
#![tactic(auto)]

ghost use Rattle.std.specs.Prelude.{◌≡◌, ◌*◌, ◌-◌, ◌≤◌, ◌<◌, length, get_or};
ghost use Rattle.base.specs.Tests.{product};
ghost use Rattle.base.specs.Lists.{store_all};
ghost use Rattle.machine.specs.Machine.{sweep};
ghost use Rattle.nest.specs.Accepted.{Accepted};
ghost use Rattle.nest.specs.Nest.{cells, box_tiles};
ghost use Rattle.plan.specs.Geometry.{cells_of, value};
ghost use Rattle.plan.specs.declared.Route.TheVariants.{Direct};
ghost use Rattle.plan.specs.Messages.{box_plan};
ghost use Rattle.layout.specs.Places.{nth};
ghost use Rattle.nest.specs.declared.Nest.{Nest};
ghost use Rattle.bands.specs.lagged.Bands.{rows_of};
ghost use Rattle.values.specs.row_values.Given.{with_body};
ghost use Rattle.values.specs.row_values.Boxes.{Boxed, row_at, RowsGiven};

use crate::row_values::{
    Body, backs_of, box_fours, box_rows, inner, lasts_of, least_of, margins_of,
};
use layout::Layout;
use nest::Nest;

pub mod intervals; // intervals.rt: numbers from one on, below another: where in a row a distance reads
pub mod row_values; // row_values.rt: the rows of a box of cells, one by one or four side by side
pub mod shaped_values; // shaped_values.rt: a tile, the sweep and collecting of a nest with bounds

// How many times four rows are taken: none in rows too short for it, nor where no distance reads the row itself, so that no
// cell waits for another.
fn by_fours(rows: usize, width: usize, least: usize) -> usize
    ensures { 4 * result ≤ rows }
{
    if width < 11 {
        return 0;
    }
    if width <= least {
        return 0;
    }
    rows / 4
}

// The values of all rows of a box: in groups of four, then those that are left, one by one.
fn all_rows(
    body: Body,
    source: &[u32],
    memory: &mut [u32],
    components: &[usize; 32],
    lasts: &[usize; 8],
    back: &[usize; 8],
    weights: &[u64; 8],
    margin: &[usize; 4],
    grid: &[usize; 4],
    lengths: &[usize; 4],
    corner: [usize; 4],
    rows: usize,
    groups: usize,
    own: bool,
)
    requires { (x : Nest) × (RowsGiven (with_body x body) components.now lasts.now back.now weights.now margin.now source.now memory.old
        grid.now lengths.now corner corner 0 × ((4 * groups ≤ rows) × (rows ≤ 16384))) }
    ensures { (x : Nest) → RowsGiven (with_body x body) components.now lasts.now back.now weights.now
        margin.now source.now memory.old grid.now lengths.now corner corner 0
        → memory.new ≡ store_all (value (with_body x body) source.now) memory.old
        (rows_of (row_at (with_body x body) lengths.now corner) (get_or lengths.now (body.dimensions - 1) 0) rows) }
{
    let mut at = corner;
    box_fours(
        body, source, memory, components, lasts, back, weights, margin, grid, lengths, &corner,
        &mut at, groups, own,
    );
    box_rows(
        body,
        source,
        memory,
        components,
        lasts,
        back,
        weights,
        margin,
        grid,
        lengths,
        &corner,
        &mut at,
        4 * groups,
        rows,
    );
}

// The values of the cells of a box, in index order, row by row; `own` if no distance reads another row.
fn box_values(
    nest: Nest,
    source: &[u32],
    memory: &mut [u32],
    lengths: [usize; 4],
    corner: [usize; 4],
)
    requires { Accepted nest × (Boxed nest lengths corner × ((length source.now ≡ cells nest) × (length memory.old ≡ cells nest))) }
    ensures { memory.new ≡ store_all (value nest source.now) memory.old
        (rows_of (row_at nest lengths corner) (get_or lengths (nest.dimensions - 1) 0) (product (nth lengths) (nest.dimensions - 1))) }
{
    let components = nest.components;
    let weights = nest.weights;
    let grid = nest.lengths;
    let back = backs_of(nest, &components);
    let margin = margins_of(nest, &components);
    let lasts = lasts_of(nest, &components);
    let least = least_of(nest, &back);
    let last = nest.dimensions - 1;
    let count = layout::product(lengths, last);
    let groups = by_fours(count, lengths[last], least);
    let origin = [0; 4];
    let own = inner(&margin, &origin, last);
    let body = Body {
        dimensions: nest.dimensions,
        distances: nest.distances,
        shift: nest.shift,
        boundary: nest.boundary,
    };
    all_rows(
        body,
        source,
        memory,
        &components,
        &lasts,
        &back,
        &weights,
        &margin,
        &grid,
        &lengths,
        corner,
        count,
        groups,
        own,
    );
}

// The values of a tile's cells, in index order.
pub fn calculate(layout: &Layout, source: &[u32], memory: &mut [u32], tile: usize)
    requires { (tile < box_tiles layout.now.nest) × ((length source.now ≡ cells layout.now.nest) × (length memory.old ≡ cells layout.now.nest)) }
    ensures { memory.new ≡ store_all (value layout.now.nest source.now) memory.old (cells_of layout.now.nest tile) }
{
    let bounds = layout.bounds_of(tile);
    let lengths = bounds.lengths;
    let corner = bounds.corner;
    box_values(layout.nest, source, memory, lengths, corner);
}

// The sequential sweep: all cells in index order.
pub fn sweep(layout: &Layout, source: &[u32], grid: &mut [u32])
    requires { (length source.now ≡ cells layout.now.nest) × (length grid.old ≡ cells layout.now.nest) }
    ensures { grid.new ≡ sweep (box_plan Direct layout.now.nest) source.now }
{
    let lengths = layout.nest.lengths;
    let corner = [0; 4];
    box_values(layout.nest, source, grid, lengths, corner);
}
