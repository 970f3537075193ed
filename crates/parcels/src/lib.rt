// Parcels in code: the box that holds a slot's cells and the window that a distance puts them into, a parcel's length, packing, unpacking.
#![tactic(auto)]

ghost use Rattle.std.specs.Prelude.{◌≡◌, ℕ, ◌+◌, ◌*◌, ◌-◌, min, ◌≤◌, ◌<◌, length, get_or, eqb, leb, ltb};
ghost use Rattle.base.specs.Tests.{◌and◌, one, some};
ghost use Rattle.base.specs.Lists.{pack, unpack};
ghost use Rattle.nest.specs.Accepted.{Accepted};
ghost use Rattle.nest.specs.Nest.{tile_count, cells};
ghost use Rattle.plan.specs.Messages.{slots, slot_parcel};
ghost use Rattle.layout.specs.Places.{nth};
ghost use Rattle.layout.specs.CellRows.{Given};
ghost use Rattle.parcels.specs.Twins.{two_before};
ghost use Rattle.parcels.specs.Windows.{RowRoom, RowPacked, window_of, RowEnd, DistanceEnds, Leading, carries, Unchanged, InBlock, Alike};
ghost use Rattle.parcels.specs.Sendings.{earlier, later, box_at, window_at, Boxed, Windowed, Headed, Idle, BoxOfRows, Sends, RowAt};

use layout::Layout;
use nest::Nest;
use plan::Route;

pub mod shaped; // shaped.rt: the same of nests with bounds, by rows and spans

// A box of places, from its first one with its lengths.
#[derive(Clone, Copy)]
pub struct Block {
    pub corner: [usize; 4],
    pub lengths: [usize; 4],
}

// The window: a cell of the box is the slot's if some distance puts it from `low` on, below `high`, in each dimension.
#[derive(Clone, Copy)]
pub struct Window {
    pub low: [usize; 4],
    pub high: [usize; 4],
}

// What a slot's cells are found by: the box by rows, and the window.
#[derive(Clone, Copy)]
pub struct Sending {
    pub block: Block,
    pub window: Window,
    pub rows: usize,
    pub width: usize,
}

// A row of the box: the place of its first cell, the last component there, the ends in it, how many of its cells are in
// the parcel, and how many rows from it on are like it.
#[derive(Clone, Copy)]
pub struct Row {
    pub place: [usize; 4],
    pub component: usize,
    pub ends: [usize; 8],
    pub run: usize,
    pub alike: usize,
}

// The carry test: whether `component` + `distance` lies from `low` on, below `high`.
fn carry(component: usize, distance: usize, low: usize, high: usize) -> bool
    requires { component + distance ≤ 4096 }
    ensures { result ≡ carries low high (component + distance) }
{
    let moved = component + distance;
    low <= moved && moved < high
}

// 1 where the test is true, else 0.
pub fn one(test: bool) -> usize
    ensures { result ≡ one test }
{
    usize::from(test)
}

// In how many of the first dimensions a tile is like the one before it only if that one has another before it: on the indirect
// route cells come from there too.
pub fn two_before(nest: Nest, route: Route) -> usize
    requires { Accepted nest }
    ensures { result ≡ two_before route nest }
{
    match route {
        Route::Direct => 0,
        Route::Indirect => nest.spread - 1,
    }
}

// In how many of the first dimensions a slot's cells come from the tile before too: on the indirect route in those that
// messages go along before the slot's own.
fn earlier_of(route: Route, way: usize) -> usize
    ensures { result ≡ earlier route way }
{
    match route {
        Route::Direct => 0,
        Route::Indirect => way,
    }
}

// From which dimension on they may be bound for the tile after too: on the indirect route from the one after the slot's own.
fn later_of(route: Route, way: usize) -> usize
    requires { way ≤ 8 }
    ensures { result ≡ later route way }
{
    match route {
        Route::Direct => 4,
        Route::Indirect => way + 1,
    }
}

// Where a tile ends, short at an edge.
fn end_of(at: usize, tiling: usize, length: usize) -> usize
    requires { (at ≤ 1025) × (tiling ≤ 1024) }
    ensures { result ≡ min (at * tiling + tiling) length }
{
    (at * tiling + tiling).min(length)
}

// The box of a slot's cells: the tile's and, in dimensions below `earlier`, those of the tile before it.
fn block_of(nest: Nest, at: [usize; 4], earlier: usize) -> Block
    requires { Accepted nest × ((j : ℕ) → j < nest.dimensions → get_or at j 0 < tile_count nest j) }
    ensures { Boxed nest (box_at nest (nth at) earlier) result }
{
    // copied out: a struct that is indexed by a variable is copied whole at each call
    let tiling = nest.tiling;
    let ends = nest.lengths;
    let mut corner = [0; 4];
    let mut lengths = [0; 4];
    for j in 0..nest.dimensions {
        let first = at[j].saturating_sub(one(j < earlier)) * tiling[j];
        corner[j] = first;
        lengths[j] = end_of(at[j], tiling[j], ends[j]) - first;
    }
    Block { corner, lengths }
}

// The window: in a spread dimension the tile that the way leads to and, from `later` on, the one after it; else the whole nest,
// whose lengths are given.
fn window_of(
    nest: Nest,
    lengths: [usize; 4],
    at: [usize; 4],
    ahead: [usize; 4],
    later: usize,
) -> Window
    requires { Accepted nest × ((lengths ≡ nest.lengths) × ((j : ℕ) → j < nest.spread → get_or at j 0 + get_or ahead j 0 ≤ 1024)) }
    ensures { Windowed nest (window_at nest (λ j. get_or at j 0 + get_or ahead j 0) later) result }
{
    let tiling = nest.tiling;
    let mut low = [0; 4];
    let mut high = lengths;
    for j in 0..nest.spread {
        let to = at[j] + ahead[j];
        low[j] = to * tiling[j];
        high[j] = end_of(to + one(j >= later), tiling[j], lengths[j]);
    }
    Window { low, high }
}

// Below which last component distance e puts a cell of the row of a place into the window; 0 if nowhere.
pub fn end_in_row(
    nest: Nest,
    components: &[usize; 32],
    window: Window,
    at: &[usize; 4],
    e: usize,
) -> usize
    requires accepted { Accepted nest × ((e < nest.distances) × Given nest components.now) }
    requires dimensions_value { (get_or window.low (nest.dimensions - 1) 0 ≡ 0) × ((j : ℕ) → j < nest.dimensions → get_or at.now j 0 < 1024) }
    ensures { RowEnd nest (window_of window) (nth at.now) e result }
{
    let last = nest.dimensions - 1;
    for j in 0..last {
        if !carry(at[j], components[4 * e + j], window.low[j], window.high[j]) {
            return 0;
        }
    }
    window.high[last].saturating_sub(components[4 * e + last])
}

// That of each distance.
fn ends_of(nest: Nest, components: &[usize; 32], window: Window, at: &[usize; 4]) -> [usize; 8]
    requires accepted { Accepted nest × Given nest components.now }
    requires dimensions_value { (get_or window.low (nest.dimensions - 1) 0 ≡ 0) × ((j : ℕ) → j < nest.dimensions → get_or at.now j 0 < 1024) }
    ensures { DistanceEnds nest (window_of window) (nth at.now) result }
{
    let mut ends = [0; 8];
    for e in 0..nest.distances {
        ends[e] = end_in_row(nest, components, window, at, e);
    }
    ends
}

// How many cells of a row, from a last component on, some distance puts there: they are the first ones.
fn run_of(ends: &[usize; 8], n: usize, component: usize, width: usize) -> usize
    requires { n ≤ 8 }
    ensures { Leading ends.now n component width result }
{
    let mut end = component;
    for last in &ends[..n] {
        end = end.max(*last);
    }
    width.min(end - component)
}

// For how many components, `from` and those after it, the carry test stays as it is.
pub fn unchanged(from: usize, low: usize, high: usize) -> usize
    ensures { Unchanged from low high result }
{
    if from < low {
        return low - from;
    }
    if from < high {
        return high - from;
    }
    1024
}

// For how many rows of the box, that of a place and those after it, which differ in the last component but one alone,
// each distance's test stays as it is.
fn rows_alike(
    nest: Nest,
    components: &[usize; 32],
    window: Window,
    block: Block,
    at: [usize; 4],
) -> usize
    requires { Accepted nest × (Given nest components.now × InBlock nest block at) }
    ensures { Alike nest window block at result }
{
    let last = nest.dimensions - 1;
    let j = last - 1;
    let component = at[j];
    let low = window.low[j];
    let high = window.high[j];
    let mut rows = block.corner[j] + block.lengths[j] - component;
    for e in 0..nest.distances {
        rows = rows.min(unchanged(component + components[4 * e + j], low, high));
    }
    rows
}

// Whether a way leads beyond the last tile in a spread dimension: nothing is bound there.
pub fn beyond_last(across: [usize; 4], at: [usize; 4], ahead: [usize; 4], n: usize) -> bool
    requires { (n ≤ 4) × ((j : ℕ) → j < n → get_or at j 0 + get_or ahead j 0 ≤ 1024) }
    ensures { result ≡ some (λ j. leb (get_or across j 0) (get_or at j 0 + get_or ahead j 0)) n }
{
    for j in 0..n {
        if at[j] + ahead[j] >= across[j] {
            return true;
        }
    }
    false
}

// Whether a step along a dimension comes to another processor.
fn hops(ahead: usize, count: usize) -> bool
    ensures { result ≡ (eqb ahead 1 and ltb 1 count) }
{
    ahead == 1 && count > 1
}

// Whether a way does.
pub fn leaves(counts: [usize; 4], ahead: [usize; 4], n: usize) -> bool
    requires { n ≤ 4 }
    ensures { result ≡ some (λ j. eqb (get_or ahead j 0) 1 and ltb 1 (get_or counts j 0)) n }
{
    for j in 0..n {
        if hops(ahead[j], counts[j]) {
            return true;
        }
    }
    false
}

// Whether a slot is to be looked at no further: the way leads beyond the last tile, or to the same processor.
fn idle(layout: &Layout, slot: usize, at: [usize; 4], ahead: [usize; 4]) -> bool
    requires { Headed layout.now.sizes.route layout.now.nest slot at ahead }
    ensures { Idle layout.now.sizes.route layout.now.nest slot result }
{
    beyond_last(layout.sizes.across, at, ahead, layout.nest.spread)
        || !leaves(layout.nest.counts, ahead, layout.nest.spread)
}

// What is found once for all rows of a slot's box.
pub fn sending_of(layout: &Layout, slot: usize, at: [usize; 4], ahead: [usize; 4]) -> Sending
    requires { Headed layout.now.sizes.route layout.now.nest slot at ahead }
    ensures { Sends layout.now.sizes.route layout.now.nest slot result }
{
    let way = slot % layout.sizes.ways;
    let block = block_of(layout.nest, at, earlier_of(layout.sizes.route, way));
    let window = window_of(
        layout.nest,
        layout.nest.lengths,
        at,
        ahead,
        later_of(layout.sizes.route, way),
    );
    let last = layout.nest.dimensions - 1;
    let rows = layout::product(block.lengths, last);
    Sending {
        block,
        window,
        rows,
        width: block.lengths[last],
    }
}

// That of a slot whose tile and way are looked at here.
fn sending_at(layout: &Layout, slot: usize) -> Sending
    requires { slot < slots layout.now.sizes.route layout.now.nest }
    ensures { Sends layout.now.sizes.route layout.now.nest slot result }
{
    let at = layout.place_of_tile(slot / layout.sizes.ways);
    let ahead = layout.along_of(slot % layout.sizes.ways);
    sending_of(layout, slot, at, ahead)
}

// Row r of the box.
pub fn row_at(nest: Nest, components: &[usize; 32], sending: Sending, r: usize) -> Row
    requires { Accepted nest × (Given nest components.now × (BoxOfRows nest sending × (r < sending.rows))) }
    ensures { RowAt nest sending r result }
{
    let last = nest.dimensions - 1;
    let block = sending.block;
    let at = layout::place(block.lengths, block.corner, r, last);
    let ends = ends_of(nest, components, sending.window, &at);
    let component = at[last];
    let run = run_of(&ends, nest.distances, component, sending.width);
    let alike = rows_alike(nest, components, sending.window, block, at);
    Row {
        place: at,
        component,
        ends,
        run,
        alike,
    }
}

// How many cells a slot's parcel has.
pub fn parcel_length(layout: &Layout, slot: usize) -> usize
    requires { slot < slots layout.now.sizes.route layout.now.nest }
    ensures { (result ≡ length (slot_parcel layout.now.sizes.route layout.now.nest slot)) × (result ≤ 16384) }
{
    let at = layout.place_of_tile(slot / layout.sizes.ways);
    let ahead = layout.along_of(slot % layout.sizes.ways);
    if idle(layout, slot, at, ahead) {
        return 0;
    }
    let sending = sending_of(layout, slot, at, ahead);
    let components = layout.nest.components;
    let mut count = 0;
    let mut r = 0;
    // from row to row by as many as are alike
    while r < sending.rows {
        let row = row_at(layout.nest, &components, sending, r);
        count += row.alike * row.run;
        r += row.alike;
    }
    count
}

// The words of a row's cells that are in the parcel, after those packed before: the search over the distances decides, and a
// cell is packed at the first of them that reads it there. At a cell that none reads the row is left: they read none after it.
fn pack_row(
    words: &mut [u32],
    memory: &[u32],
    ends: &[usize; 8],
    distances: usize,
    from: usize,
    component: usize,
    width: usize,
    packed: usize,
) -> usize
    requires { RowRoom ends.now distances from component width memory.now words.old packed }
    ensures { RowPacked ends.now distances from component width memory.now words.old packed words.new result }
{
    let mut count = packed;
    'cells: for y in 0..width {
        let number = from + y;
        let last = component + y;
        'distances: for e in 0..distances {
            if last < ends[e] {
                words[count] = memory[number];
                count += 1;
                continue 'cells;
            }
        }
        return count;
    }
    count
}

// The words of a slot's parcel, row by row: rows alike that have none of it are passed over at once.
pub fn pack(layout: &Layout, slot: usize, words: &mut [u32], memory: &[u32])
    requires { (slot < slots layout.now.sizes.route layout.now.nest) × ((length memory.now ≡ cells layout.now.nest)
        × ((length words.old ≡ length (slot_parcel layout.now.sizes.route layout.now.nest slot)) × (0 < length words.old))) }
    ensures { words.new ≡ pack memory.now (slot_parcel layout.now.sizes.route layout.now.nest slot) }
{
    let sending = sending_at(layout, slot);
    let components = layout.nest.components;
    let mut count = 0;
    let mut r = 0;
    // by one row, or over as many as have none
    while r < sending.rows {
        let row = row_at(layout.nest, &components, sending, r);
        if row.run == 0 {
            r += row.alike;
            continue;
        }
        let number = layout::rank(layout.nest.lengths, row.place, layout.nest.dimensions);
        count = pack_row(
            words,
            memory,
            &row.ends,
            layout.nest.distances,
            number,
            row.component,
            sending.width,
            count,
        );
        r += 1;
    }
}

// Each word of a slot's parcel to its cell, row by row.
pub fn unpack(layout: &Layout, slot: usize, memory: &mut [u32], words: &[u32])
    requires { (slot < slots layout.now.sizes.route layout.now.nest) × ((length memory.old ≡ cells layout.now.nest)
        × ((length words.now ≡ length (slot_parcel layout.now.sizes.route layout.now.nest slot)) × (0 < length words.now))) }
    ensures { memory.new ≡ unpack memory.old (slot_parcel layout.now.sizes.route layout.now.nest slot) words.now }
{
    let sending = sending_at(layout, slot);
    let components = layout.nest.components;
    let mut count = 0;
    let mut r = 0;
    // by one row, or over as many as have none
    while r < sending.rows {
        let row = row_at(layout.nest, &components, sending, r);
        if row.run == 0 {
            r += row.alike;
            continue;
        }
        let number = layout::rank(layout.nest.lengths, row.place, layout.nest.dimensions);
        base::copy_part(memory, words, number, count, row.run);
        count += row.run;
        r += 1;
    }
}
