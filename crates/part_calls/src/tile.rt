// A tile calculated in its processor's own part, where the words of kept cells alone stand, one after the other.
//
// Cells side by side that are all kept stand side by side there too: so a row is stored as in a memory of all cells, from the rank of its first cell on,
// and in a row each distance reads so many words back.
ghost use Rattle.std.specs.Prelude.{◌≡◌, ℕ, ◌+◌, ◌<◌, ◌≤◌, length, slice_index};
ghost use Rattle.base.specs.Lists.{store_all, pack};
ghost use Rattle.nest.specs.Accepted.{Accepted};
ghost use Rattle.nest.specs.Nest.{length_of};
ghost use Rattle.nest.specs.Spans.{last, Narrow};
ghost use Rattle.plan.specs.Shaped.{shaped_cells, shaped_value};
ghost use Rattle.layout.specs.Places.{Located};
ghost use Rattle.tables.specs.Given.{plan_of_table};
ghost use Rattle.layout.specs.CellRows.{row_of};
ghost use Rattle.values.specs.row_values.Reads.{Backs};
ghost use Rattle.values.specs.shaped_values.Rows.{mixed_along, Readable};
ghost use Rattle.network.specs.Own.{kept_cells, source_of};
ghost use Rattle.rank_index.specs.Ranks.{spread_out};
ghost use Rattle.part.specs.Part.{all_of};
ghost use Rattle.part_calls.specs.tile.Rows.{Marks, WorkedIn, KeptRow, KeptBehind, Behind, Behinds, WorkedRow, RowAt, StoresRow, GivenBox, GivenTile};

use layout::{Cell, Layout};
use nest::{Interval, Nest};
use rank_index::{BLOCKS, behind, rank};
use tables::Table;
use values::shaped_values::{Reads, overlap, reads_of};

// Cells of a row in the part: where the first stands, and its source; its last component; how many; where each distance reads, and how far back.
#[derive(Clone, Copy)]
struct Row {
    first: usize,
    from: usize,
    component: usize,
    few: usize,
    firsts: [usize; 8],
    ends: [usize; 8],
    backs: [usize; 8],
}

// ---- how far back

// How far back in the part a distance reads, of `few` cells of a row, the first of which stands at `first`; `back` in a memory of all cells.
fn back_in(
    kept: &[u8],
    counts: &[u32; BLOCKS],
    reads: Interval,
    back: usize,
    first: usize,
    cell: usize,
    component: usize,
    few: usize,
) -> usize
    requires { KeptRow kept.now counts.now first cell component few × KeptBehind kept.now cell component few reads.from reads.to back }
    ensures { Behind kept.now cell component few reads.from reads.to back result }
{
    let cut = overlap(reads, component, few);
    if cut.to <= cut.from {
        return 0;
    }
    let ahead = cut.from - component;
    behind(kept, counts, first, cell, ahead, back)
}

// The same of each distance.
fn backs_in(
    kept: &[u8],
    counts: &[u32; BLOCKS],
    n: usize,
    reads: Reads,
    back: [usize; 8],
    first: usize,
    cell: usize,
    component: usize,
    few: usize,
) -> [usize; 8]
    requires { KeptRow kept.now counts.now first cell component few × ((n ≤ 8) × ((e : ℕ) → e < n
        → KeptBehind kept.now cell component few (slice_index reads.firsts e) (slice_index reads.ends e) (slice_index back e))) }
    ensures { Behinds kept.now cell component few n reads.firsts reads.ends back result }
{
    let firsts = reads.firsts;
    let ends = reads.ends;
    let mut backs = [0; 8];
    for e in 0..n {
        let run = Interval {
            from: firsts[e],
            to: ends[e],
        };
        backs[e] = back_in(kept, counts, run, back[e], first, cell, component, few);
    }
    backs
}

// ---- a row

// `few` cells of the shape in the row of a place, from `cell` on, whose source stands from `from` on.
fn row_at(
    nest: Nest,
    kept: &[u8],
    counts: &[u32; BLOCKS],
    back: [usize; 8],
    at: [usize; 4],
    from: usize,
    cell: usize,
    component: usize,
    few: usize,
) -> Row
    requires accepted { Accepted nest × (Narrow nest at × (Backs nest back × Marks nest kept.now counts.now)) }
    requires worked_row { WorkedRow nest kept.now at cell component few }
    ensures { RowAt nest kept.now back at from cell component few result }
{
    let components = nest.components;
    let reads = reads_of(nest, &components, at);
    let firsts = reads.firsts;
    let ends = reads.ends;
    let first = rank(kept, counts, cell);
    let backs = backs_in(
        kept,
        counts,
        nest.distances,
        reads,
        back,
        first,
        cell,
        component,
        few,
    );
    Row {
        first,
        from,
        component,
        few,
        firsts,
        ends,
        backs,
    }
}

// No cells.
fn no_row() -> Row
    ensures { (result.first ≡ 0) × ((result.from ≡ 0) × ((result.component ≡ 0) × (result.few ≡ 0))) }
{
    Row {
        first: 0,
        from: 0,
        component: 0,
        few: 0,
        firsts: [0; 8],
        ends: [0; 8],
        backs: [0; 8],
    }
}

// The cells of the shape in a row, from where its first cell is.
fn row_in(
    nest: Nest,
    kept: &[u8],
    counts: &[u32; BLOCKS],
    owned: &[u8],
    tally: &[u32; BLOCKS],
    back: [usize; 8],
    cell: Cell,
    width: usize,
) -> Row
    requires accepted { Accepted nest × (Backs nest back × (Marks nest kept.now counts.now × Marks nest owned.now tally.now)) }
    requires located { Located nest cell.number cell × (slice_index cell.place (last nest) + width ≤ length_of nest (last nest)) }
    requires by_index { (y : ℕ) → y < width → WorkedIn nest kept.now owned.now (cell.number + y) }
    ensures { StoresRow nest kept.now owned.now cell.number width result }
{
    let at = cell.place;
    let component = at[nest.dimensions - 1];
    let own = nest::span_of(&nest, &at);
    let cut = overlap(own, component, width);
    let few = cut.to - cut.from;
    if few == 0 {
        return no_row();
    }
    let start = cell.number + (cut.from - component);
    let from = rank(owned, tally, start);
    row_at(nest, kept, counts, back, at, from, start, cut.from, few)
}

// Its words.
fn store(nest: Nest, row: Row, source: &[u32], memory: &mut [u32])
    requires { Readable nest.distances row.firsts row.ends row.backs nest.weights nest.boundary nest.shift row.from row.first
        row.component row.few (length source.now) (length memory.old) }
    ensures { memory.new ≡ store_all (mixed_along nest.distances row.firsts row.ends row.backs nest.weights nest.boundary
        nest.shift source.now row.from row.first row.component) memory.old (row_of row.first row.few) }
{
    values::shaped_values::store_row(
        source,
        memory,
        nest.shift,
        nest.boundary,
        nest.distances,
        &row.firsts,
        &row.ends,
        &row.backs,
        &nest.weights,
        row.from,
        row.first,
        row.component,
        row.few,
    );
}

// ---- a tile

// The cells of the shape in a tile of the box, row by row.
fn calculate_box(
    layout: &Layout,
    kept: &[u8],
    counts: &[u32; BLOCKS],
    owned: &[u8],
    tally: &[u32; BLOCKS],
    source: &[u32],
    memory: &mut [u32],
    tile: usize,
)
    requires { GivenBox layout.now.nest kept.now counts.now owned.now tally.now (length source.now) (length memory.old) tile }
    ensures { (length memory.new ≡ length memory.old) × (spread_out kept.now memory.new
        ≡ store_all (shaped_value layout.now.nest (spread_out owned.now source.now)) (spread_out kept.now memory.old)
        (shaped_cells layout.now.nest tile)) }
{
    let bounds = layout.bounds_of(tile);
    let components = layout.nest.components;
    let back = values::row_values::backs_of(layout.nest, &components);
    let last = layout.nest.dimensions - 1;
    let lengths = bounds.lengths;
    let rows = layout::product(lengths, last);
    let width = lengths[last];
    for r in 0..rows {
        let cell = layout.cell_in(bounds, r * width);
        let row = row_in(layout.nest, kept, counts, owned, tally, back, cell, width);
        store(layout.nest, row, source, memory);
    }
}

// The words of a tile's cells in its processor's part, from the source of the processor's own cells.
pub fn calculate(
    table: &Table,
    kept: &[u8],
    counts: &[u32; BLOCKS],
    owned: &[u8],
    tally: &[u32; BLOCKS],
    source: &[u32],
    memory: &mut [u32],
    b: usize,
    tile: usize,
)
    requires { GivenTile table.now kept.now counts.now owned.now tally.now (length source.now) (length memory.old) b tile }
    ensures { memory.new
        ≡ pack (store_all ((plan_of_table table.now).value (source_of (plan_of_table table.now) b source.now))
        (all_of (plan_of_table table.now) b memory.old) ((plan_of_table table.now).cells_of tile))
        (kept_cells (plan_of_table table.now) b) }
{
    let number = part::box_tile(table, tile);
    calculate_box(
        &table.layout,
        kept,
        counts,
        owned,
        tally,
        source,
        memory,
        number,
    );
}
