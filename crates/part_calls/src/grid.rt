// A processor's own cells and the cells outside the shape, into the grid: the lines before it, and the words.
ghost use Rattle.std.specs.Prelude.{◌≡◌, ℕ, ◌<◌, ◌≤◌, List, [], length, ◌==◌, slice_index, OnOk};
ghost use Rattle.base.specs.Tests.{pick, tabulate};
ghost use Rattle.base.specs.Numbers.{first_of};
ghost use Rattle.base.specs.Refusals.{number_of};
ghost use Rattle.machine.specs.Machine.{state_of};
ghost use Rattle.nest.specs.Nest.{cells, processors};
ghost use Rattle.nest.specs.Spans.{within};
ghost use Rattle.layout.specs.Sizes.{Routed};
ghost use Rattle.layout.specs.Laid.{plan_of_layout};
ghost use Rattle.tables.specs.Given.{plan_of_table};
ghost use Rattle.records.specs.Records.{Flattens};
ghost use Rattle.engine.specs.Calls.{answer};
ghost use Rattle.network.specs.Own.{keeps, kept_cells};
ghost use Rattle.part_calls.specs.front.Calls.{part_collected};
ghost use Rattle.part_calls.specs.front.Given.{Cells};
ghost use Rattle.part_calls.specs.Given.{outside_word, grid_word, Within, collect_lines, collected_or};

use crate::front::{fit_own, keep_cells};
use base::refusal::Refusal;
use layout::Layout;
use nest::{Interval, MOST_CELLS};
use part::mark_own;
use rank_index::BLOCKS;
use records::Flat;
use tables::{TABLE_WORDS, Table};

// ---- outside the shape

// A word of a row: outside the span the boundary's, else as it was.
fn outside_word(s: Interval, y: usize, boundary: u32, word: u32) -> u32
    ensures { result ≡ pick (within s y) word boundary }
{
    if s.from <= y && y < s.to {
        word
    } else {
        boundary
    }
}

// A row's words.
fn outside_row(row: &mut [u32], s: Interval, boundary: u32)
    requires { length row.old ≤ 16384 }
    ensures { row.new ≡ tabulate (λ y. pick (within s y) (slice_index row.old y) boundary) (length row.old) }
{
    for (y, word) in row.iter_mut().enumerate() {
        *word = outside_word(s, y, boundary, *word);
    }
}

// The boundary's word where a cell is outside the shape, row by row.
fn put_outside(layout: &Layout, grid: &mut [u32])
    requires { length grid.old ≡ cells layout.now.nest }
    ensures { grid.new ≡ tabulate (outside_word layout.now.nest grid.old) (cells layout.now.nest) }
{
    let boundary = layout.nest.boundary as u32;
    let width = layout.nest.lengths[layout.nest.dimensions - 1];
    let rows = nest::row_count(layout.nest);
    for q in 0..rows {
        let c = q * width;
        let at = nest::row_place(layout.nest, q);
        let own = nest::span_of(&layout.nest, &at);
        let end = c + width;
        outside_row(&mut grid[c..end], own, boundary);
    }
}

// ---- its own cells

// A kept cell's word: the part's where the cell is the processor's own, else as it was.
fn own_word(mark: u8, word: u32, old: u32) -> u32
    ensures { result ≡ pick (mark == 1) word old }
{
    if mark == 1 { word } else { old }
}

// The words of its own cells; of kept cells these alone.
fn put_cells(owned: &[u8], kept: &[u8], memory: &[u32], grid: &mut [u32])
    requires { Within owned.now kept.now memory.now grid.old }
    ensures { grid.new
        ≡ tabulate (grid_word owned.now kept.now memory.now grid.old) (length grid.old) }
{
    let mut n = 0;
    for (c, word) in grid.iter_mut().enumerate() {
        if kept[c] == 1 {
            *word = own_word(owned[c], memory[n], *word);
            n += 1;
        }
    }
}

// The words of its own cells and the boundary's, into the grid.
fn put_own(
    layout: &Layout,
    kept: &[u8],
    counts: &[u32; BLOCKS],
    memory: &[u32],
    b: usize,
    grid: &mut [u32],
)
    requires routed { Routed layout.now.nest layout.now.sizes }
    requires sized { (b < processors layout.now.nest)
        × Cells layout.now.nest (keeps (plan_of_layout layout.now) b) kept.now counts.now }
    requires memory_len { (length memory.now ≡ length (kept_cells (plan_of_layout layout.now) b)) × (length grid.old ≡ cells layout.now.nest) }
    ensures { (records : List ℕ) → grid.new
        ≡ part_collected (plan_of_layout layout.now) b (state_of memory.now [] records []) grid.old }
{
    let cells = layout.sizes.cells;
    let mut owned = [0u8; MOST_CELLS];
    mark_own(layout, b, &mut owned[..cells]);
    put_outside(layout, grid);
    put_cells(&owned[..cells], kept, memory, grid);
}

// Lines 9, 10 and 15.
fn uncollected(
    table: &Table,
    many: usize,
    memory: &[u32],
    progress: Flat,
    b: usize,
    grid: &[u32],
) -> Result<(), Refusal>
    requires { (b < processors table.now.layout.nest)
        × ((many ≡ length (kept_cells (plan_of_table table.now) b)) × (length progress.words ≡ 192)) }
    ensures lines { (records : List ℕ) → Flattens progress records
        → number_of result ≡ first_of (collect_lines (plan_of_table table.now) b (state_of memory.now [] records []) grid.now) }
    ensures lengths { OnOk result ((length memory.now ≡ length (kept_cells (plan_of_table table.now) b)) × (length grid.now ≡ cells table.now.layout.nest)) }
{
    let words = progress.words;
    if memory.len() != many || progress.count != 3 || grid.len() != table.layout.sizes.cells {
        return Err(Refusal::Area);
    }
    if !fit_own(table, b, words[0], words[1], words[2]) {
        return Err(Refusal::Unfit);
    }
    if (words[0] as usize) < table.tile_count(b) {
        return Err(Refusal::Early);
    }
    Ok(())
}

// These lines, then the words.
pub fn collect_part(
    layout: &Layout,
    memory: &[u32],
    progress: Flat,
    b: usize,
    grid: &mut [u32],
) -> Result<(), Refusal>
    requires routed { Routed layout.now.nest layout.now.sizes }
    requires low { (b < processors layout.now.nest) × (length progress.words ≡ 192) }
    ensures { (records : List ℕ) → Flattens progress records
        → answer (number_of result) grid.new
        ≡ collected_or (plan_of_layout layout.now) b (state_of memory.now [] records []) grid.old }
{
    let cells = layout.sizes.cells;
    let mut lens = [0; TABLE_WORDS];
    let mut kept = [0u8; MOST_CELLS];
    let mut counts = [0u32; BLOCKS];
    let table = Table::of(*layout, &mut lens);
    let many = keep_cells(&table, b, &mut kept[..cells], &mut counts);
    uncollected(&table, many, memory, progress, b, grid)?;
    put_own(layout, &kept[..cells], &counts, memory, b, grid);
    Ok(())
}
