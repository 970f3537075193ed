// Rows in code: the values of a row, and of the rows of a box of cells, one by one or four side by side.
ghost use Rattle.std.specs.Prelude.{◌≡◌, ◌+◌, ◌*◌, ◌-◌, ◌≤◌, ◌<◌, length, get_or, leb, true};
ghost use Rattle.base.specs.Tests.{every};
ghost use Rattle.base.specs.Lists.{store_all};
ghost use Rattle.nest.specs.Accepted.{Accepted};
ghost use Rattle.plan.specs.Geometry.{value};
ghost use Rattle.layout.specs.Places.{Has, Places, Inside, Follows};
ghost use Rattle.layout.specs.CellRows.{Given, row_of};
ghost use Rattle.nest.specs.declared.Nest.{Nest};
ghost use Rattle.values.specs.row_values.Waves.{most_of, Lasts, Inner};
ghost use Rattle.values.specs.row_values.Given.{with_body, ReadsBy, RowGiven};
ghost use Rattle.values.specs.row_values.Boxes.{RowsGiven, Stored};
ghost use Rattle.values.specs.row_values.Reads.{first_read, step_back, Firsts, Backs};

use bands::edge_rows::{edge_row, short_row};
use bands::side_by_side;
use nest::Nest;

// The numbers of a nest that its rows go by. A nest itself is large, and handed on by value for each row it would be copied as often.
#[derive(Clone, Copy)]
pub struct Body {
    pub dimensions: usize,
    pub distances: usize,
    pub shift: u64,
    pub boundary: u64,
}

// How many cells back distance e reads: a place moved by a distance moves its number so. No component counts for more than
// its dimension's length.
fn back_of(nest: Nest, components: &[usize; 32], e: usize) -> usize
    requires { Accepted nest × ((e < nest.distances) × Given nest components.now) }
    ensures { result ≡ step_back nest e }
{
    let lengths = nest.lengths;
    let n = nest.dimensions;
    let mut back = 0;
    for j in 0..n {
        let d = components[4 * e + j].min(lengths[j]);
        back = back * lengths[j] + d;
    }
    back
}

// The same of each distance, made once in a call.
pub fn backs_of(nest: Nest, components: &[usize; 32]) -> [usize; 8]
    requires { Accepted nest × Given nest components.now }
    ensures { Backs nest result }
{
    let mut back = [0; 8];
    let n = nest.distances;
    for e in 0..n {
        back[e] = back_of(nest, components, e);
    }
    back
}

// From which last component on distance e reads a cell, in the row of a place; 1024 if nowhere.
pub fn first_of(body: Body, components: &[usize; 32], at: [usize; 4], e: usize) -> usize
    requires { (x : Nest) × ReadsBy (with_body x body) components.now e }
    ensures { (x : Nest) → ReadsBy (with_body x body) components.now e → result ≡ first_read (with_body x body) at e }
{
    let last = body.dimensions - 1;
    for j in 0..last {
        if at[j] < components[4 * e + j] {
            return 1024;
        }
    }
    components[4 * e + last]
}

fn firsts_of(body: Body, components: &[usize; 32], at: [usize; 4]) -> [usize; 8]
    requires { (x : Nest) × (Accepted (with_body x body) × Given (with_body x body) components.now) }
    ensures { (x : Nest) → Accepted (with_body x body) → Given (with_body x body) components.now
        → Firsts (with_body x body) at result }
{
    let mut first = [0; 8];
    let n = body.distances;
    for e in 0..n {
        first[e] = first_of(body, components, at, e);
    }
    first
}

// The values of a row, from the place and the number of its first cell.
fn row(
    body: Body,
    source: &[u32],
    memory: &mut [u32],
    components: &[usize; 32],
    lasts: &[usize; 8],
    back: &[usize; 8],
    weights: &[u64; 8],
    margin: &[usize; 4],
    at: &[usize; 4],
    first: usize,
    width: usize,
)
    requires { (x : Nest) × RowGiven (with_body x body) components.now lasts.now back.now weights.now margin.now source.now memory.old
        at.now first width }
    ensures { (x : Nest) → RowGiven (with_body x body) components.now lasts.now back.now weights.now
        margin.now source.now memory.old at.now first width
        → memory.new ≡ store_all (value (with_body x body) source.now) memory.old (row_of first width) }
{
    let last = body.dimensions - 1;
    let component = at[last];
    let from = margin[last];
    let shift = body.shift;
    let boundary = body.boundary;
    let n = body.distances;
    if inner(margin, at, last) {
        edge_row(
            source, memory, shift, boundary, n, lasts, back, weights, from, first, component, width,
        );
        return;
    }
    let place = [at[0], at[1], at[2], at[3]];
    let firsts = firsts_of(body, components, place);
    short_row(
        source, memory, shift, boundary, n, &firsts, back, weights, from, first, component, width,
    );
}

// The shortest way back.
pub fn least_of(nest: Nest, back: &[usize; 8]) -> usize
    requires { Accepted nest }
{
    let mut least = 16384;
    for e in 0..nest.distances {
        least = least.min(back[e]);
    }
    least
}

// The most that a distance has in dimension j.
fn margin_of(nest: Nest, components: &[usize; 32], j: usize) -> usize
    requires { Accepted nest × ((j < nest.dimensions) × Given nest components.now) }
    ensures { result ≡ most_of nest j nest.distances }
{
    let mut most = 0;
    let n = nest.distances;
    for e in 0..n {
        most = most.max(components[4 * e + j]);
    }
    most
}

// The same of each dimension, made once in a call.
pub fn margins_of(nest: Nest, components: &[usize; 32]) -> [usize; 4]
    requires { Accepted nest × Given nest components.now }
    ensures { Has result (λ j. most_of nest j nest.distances) nest.dimensions }
{
    let mut margin = [0; 4];
    let n = nest.dimensions;
    for j in 0..n {
        margin[j] = margin_of(nest, components, j);
    }
    margin
}

// From which last component on each distance reads a cell in an inner row.
pub fn lasts_of(nest: Nest, components: &[usize; 32]) -> [usize; 8]
    requires { Accepted nest × Given nest components.now }
    ensures { Lasts nest result }
{
    let mut first = [0; 8];
    let n = nest.distances;
    let last = nest.dimensions - 1;
    for e in 0..n {
        first[e] = components[4 * e + last];
    }
    first
}

// Whether all distances read in the row of a place, once far enough along it.
pub fn inner(margin: &[usize; 4], at: &[usize; 4], last: usize) -> bool
    requires { last ≤ 4 }
    ensures { result ≡ every (λ j. leb (get_or margin.now j 0) (get_or at.now j 0)) last }
{
    for j in 0..last {
        if at[j] < margin[j] {
            return false;
        }
    }
    true
}

// From which column on four rows go side by side.
fn start_of(margin: usize, component: usize) -> usize
    requires { margin ≤ 1024 }
    ensures { (3 ≤ result) × ((margin + 3 ≤ component + result) × (result ≤ 1027)) }
{
    if margin <= component {
        return 3;
    }
    margin - component + 3
}

// The place of the next row of a box: the last component one more, or the first again and one more before it. In place, since
// a place copied as soon as one word of it is written is waited for.
fn advance(lengths: &[usize; 4], from: &[usize; 4], at: &mut [usize; 4], left: usize)
    requires { (length at.old ≡ 4) × (Places lengths.now from.now left × Inside lengths.now from.now left at.old) }
    ensures { (length at.new ≡ 4) × Follows lengths.now from.now left at.old at.new }
{
    if left == 0 {
        return;
    }
    let j = left - 1;
    let component = at[j] + 1;
    if component < from[j] + lengths[j] {
        at[j] = component;
        return;
    }
    at[j] = from[j];
    advance(lengths, from, at, j);
}

// Whether the row at a place and the three after it are long enough, differ in the last component but one alone, and all are inner:
// so far from each other as rows of the grid are.
fn together(
    margin: &[usize; 4],
    lengths: &[usize; 4],
    corner: &[usize; 4],
    at: &[usize; 4],
    last: usize,
    from: usize,
    width: usize,
) -> bool
    requires { (last ≤ 3) × ((from ≤ 1027) × (Places lengths.now corner.now last × Inside lengths.now corner.now last at.now)) }
    ensures { result ≡ true → (from ≤ width) × ((1 ≤ last) × (Inner margin.now at.now last
        × (get_or at.now (last - 1) 0 + 3 < get_or corner.now (last - 1) 0 + get_or lengths.now (last - 1) 0))) }
{
    if width < from + 8 {
        return false;
    }
    if last == 0 {
        return false;
    }
    let j = last - 1;
    if corner[j] + lengths[j] <= at[j] + 3 {
        return false;
    }
    inner(margin, at, last)
}

// The values of the rows of a box from row `first` on, whose place is `at`, up to row `end`, one by one.
pub fn box_rows(
    body: Body,
    source: &[u32],
    memory: &mut [u32],
    components: &[usize; 32],
    lasts: &[usize; 8],
    back: &[usize; 8],
    weights: &[u64; 8],
    margin: &[usize; 4],
    grid: &[usize; 4],
    lengths: &[usize; 4],
    corner: &[usize; 4],
    at: &mut [usize; 4],
    first: usize,
    end: usize,
)
    requires { (x : Nest) × (RowsGiven (with_body x body) components.now lasts.now back.now weights.now margin.now source.now memory.old
        grid.now lengths.now corner.now at.old first × ((first ≤ end) × (end ≤ 16384))) }
    ensures { (x : Nest) → RowsGiven (with_body x body) components.now lasts.now back.now weights.now
        margin.now source.now memory.old grid.now lengths.now corner.now
        at.old first → Stored (with_body x body) source.now lengths.now corner.now memory.old
        memory.new at.new first (end - first) }
{
    let n = body.dimensions;
    let last = n - 1;
    let width = lengths[last];
    for r in first..end {
        let number = layout::rank_of(grid, at, n);
        row(
            body, source, memory, components, lasts, back, weights, margin, at, number, width,
        );
        advance(lengths, corner, at, last);
    }
}

// The values of four rows of a box from row `first` on, whose place is `at`: side by side where they go together, else one by one.
// `own` says which way side by side; either is right.
fn four_rows(
    body: Body,
    source: &[u32],
    memory: &mut [u32],
    components: &[usize; 32],
    lasts: &[usize; 8],
    back: &[usize; 8],
    weights: &[u64; 8],
    margin: &[usize; 4],
    grid: &[usize; 4],
    lengths: &[usize; 4],
    corner: &[usize; 4],
    at: &mut [usize; 4],
    first: usize,
    own: bool,
)
    requires { (x : Nest) × (RowsGiven (with_body x body) components.now lasts.now back.now weights.now margin.now source.now memory.old
        grid.now lengths.now corner.now at.old first × (first + 4 ≤ 16384)) }
    ensures { (x : Nest) → RowsGiven (with_body x body) components.now lasts.now back.now weights.now
        margin.now source.now memory.old grid.now lengths.now corner.now
        at.old first → Stored (with_body x body) source.now lengths.now corner.now memory.old
        memory.new at.new first 4 }
{
    let n = body.dimensions;
    let last = n - 1;
    let width = lengths[last];
    let component = at[last];
    let from = start_of(margin[last], component);
    if !together(margin, lengths, corner, at, last, from, width) {
        box_rows(
            body,
            source,
            memory,
            components,
            lasts,
            back,
            weights,
            margin,
            grid,
            lengths,
            corner,
            at,
            first,
            first + 4,
        );
        return;
    }
    let stride = grid[last];
    let a = layout::rank_of(grid, at, n);
    let b = a + stride;
    let c = b + stride;
    side_by_side(
        source,
        memory,
        body.shift,
        body.boundary,
        body.distances,
        lasts,
        back,
        weights,
        a,
        b,
        c,
        c + stride,
        component,
        from,
        width,
        own,
    );
    at[last - 1] += 3;
    advance(lengths, corner, at, last);
}

// The values of the rows of a box in groups of four, from its first row on; `own` if no distance reads another row.
pub fn box_fours(
    body: Body,
    source: &[u32],
    memory: &mut [u32],
    components: &[usize; 32],
    lasts: &[usize; 8],
    back: &[usize; 8],
    weights: &[u64; 8],
    margin: &[usize; 4],
    grid: &[usize; 4],
    lengths: &[usize; 4],
    corner: &[usize; 4],
    at: &mut [usize; 4],
    groups: usize,
    own: bool,
)
    requires { (x : Nest) × (RowsGiven (with_body x body) components.now lasts.now back.now weights.now margin.now source.now memory.old
        grid.now lengths.now corner.now at.old 0 × (4 * groups ≤ 16384)) }
    ensures { (x : Nest) → RowsGiven (with_body x body) components.now lasts.now back.now weights.now
        margin.now source.now memory.old grid.now lengths.now corner.now
        at.old 0 → Stored (with_body x body) source.now lengths.now corner.now memory.old
        memory.new at.new 0 (4 * groups) }
{
    for g in 0..groups {
        four_rows(
            body,
            source,
            memory,
            components,
            lasts,
            back,
            weights,
            margin,
            grid,
            lengths,
            corner,
            at,
            4 * g,
            own,
        );
    }
}
