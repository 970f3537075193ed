// Rows of the box's tiles along the last dimension: which tiles are like an earlier one, the tile before them in the row where all that is
// near lies in the shape, or the tile a move of tiles before them where every bound moves along with that move.
ghost use Rattle.std.specs.Prelude.{◌≡◌, ◌≢◌, true, ℕ, ◌+◌, ◌-◌, ◌*◌, ◌≤◌, ◌<◌, get_or, IfSome};
ghost use Rattle.nest.specs.Accepted.{Accepted};
ghost use Rattle.nest.specs.Nest.{side, slope, earlier, bound_offset, box_tiles};
ghost use Rattle.nest.specs.Places.{tile_place};
ghost use Rattle.nest.specs.Spans.{last};
ghost use Rattle.layout.specs.Places.{Has};
ghost use Rattle.parcels.specs.shaped.Parcels.{Farthest};
ghost use Rattle.tables.specs.shaped_table.Lines.{Area, Few, Cut, Inner, PlacesIn, Lined};
ghost use Rattle.tables.specs.shaped_table.Moves.{Short, KeptBy, Kept, Moves, Behind, MovedIn};

use layout::Layout;
use nest::{Interval, Nest};
use parcels::Window;

// A move of tiles: so many in each dimension, and so far in the box's numbers.
#[derive(Clone, Copy)]
pub struct Move {
    pub steps: [usize; 4],
    pub far: usize,
}

// Of a row of the box's tiles: those, from one number on, below another, that are like the tile so far before them; and where the row ends.
#[derive(Clone, Copy)]
pub struct TileRow {
    pub from: usize,
    pub to: usize,
    pub far: usize,
    pub end: usize,
}

// A component of the earlier dimension of a bound, and what the bound gives there.
#[derive(Clone, Copy)]
struct Edge {
    at: usize,
    level: usize,
}

// ---- rows of tiles that lie wholly inside

// The components of the cells of a tile at a place and of those that a distance takes them to, from the least to the greatest.
fn area_of(nest: Nest, most: [usize; 4], at: [usize; 4]) -> Window
    requires { Accepted nest × (Farthest nest most × ((j : ℕ) → j < nest.dimensions → get_or at j 0 ≤ 1024)) }
    ensures { Area nest at most result }
{
    let tiling = nest.tiling;
    let n = nest.dimensions;
    let mut low = [0; 4];
    let mut high = [0; 4];
    for j in 0..n {
        let first = at[j] * tiling[j];
        low[j] = first;
        high[j] = first + (tiling[j] - 1) + most[j];
    }
    Window { low, high }
}

// Of two components of the earlier dimension, at which one a bound leaves less: where its slope is not negative, the second.
fn worst(slope: usize, a: usize, b: usize) -> usize
    ensures { (slope ≡ 0 → result ≡ a) × (0 < slope → result ≡ b) }
{
    if slope == 0 {
        return a;
    }
    b
}

// Of two corners of an area the component of the earlier dimension at which bound k leaves less, and what the bound gives there.
fn edge_of(nest: Nest, k: usize, flat: [usize; 4], steep: [usize; 4]) -> Edge
    requires bound { Accepted nest × (k < nest.bounds) }
    requires small { Few nest (record { low = flat; high = steep }) }
    ensures worst { (slope nest k ≡ 0 → result.at ≡ get_or flat (earlier nest k) 0) × (0 < slope nest k → result.at ≡ get_or steep (earlier nest k) 0) }
    ensures level { result.level ≡ slope nest k * result.at + bound_offset nest k }
{
    let e = nest.earlier[k] as usize;
    let slope = nest.slopes[k] as usize;
    let offset = nest.offsets[k] as usize;
    let at = worst(slope, flat[e], steep[e]);
    let level = slope * at + offset;
    Edge { at, level }
}

// What lower bound k leaves of an interval of the last dimension, all over an area in the dimensions before it.
fn lower_cut(nest: Nest, area: Window, left: Interval, k: usize) -> Interval
    requires { Accepted nest × ((k < nest.bounds) × ((side nest k ≡ 0) × (Few nest area × ((left.from ≤ 8388608) × (left.to ≤ 1024))))) }
    ensures { Cut nest area k left result }
{
    let low = area.low;
    let high = area.high;
    let j = nest.bounded[k] as usize;
    let Edge { at, level } = edge_of(nest, k, low, high);
    if j + 1 < nest.dimensions {
        if level <= low[j] + at + 32768 {
            return left;
        }
        return Interval { from: 0, to: 0 };
    }
    if level <= left.from + at + 32768 {
        return left;
    }
    Interval {
        from: level - at - 32768,
        to: left.to,
    }
}

// What upper bound k leaves.
fn upper_cut(nest: Nest, area: Window, left: Interval, k: usize) -> Interval
    requires { Accepted nest × ((k < nest.bounds) × ((side nest k ≢ 0) × (Few nest area × ((left.from ≤ 8388608) × (left.to ≤ 1024))))) }
    ensures { Cut nest area k left result }
{
    let low = area.low;
    let high = area.high;
    let j = nest.bounded[k] as usize;
    let Edge { at, level } = edge_of(nest, k, high, low);
    if j + 1 < nest.dimensions {
        if high[j] + at + 32768 <= level {
            return left;
        }
        return Interval { from: 0, to: 0 };
    }
    if level < at + 32768 {
        return Interval { from: 0, to: 0 };
    }
    Interval {
        from: left.from,
        to: left.to.min(level + 1 - at - 32768),
    }
}

// What a bound leaves.
fn cut_by(nest: Nest, area: Window, left: Interval, k: usize) -> Interval
    requires { Accepted nest × ((k < nest.bounds) × (Few nest area × ((left.from ≤ 8388608) × (left.to ≤ 1024)))) }
    ensures { Cut nest area k left result }
{
    if nest.sides[k] == 0 {
        return lower_cut(nest, area, left, k);
    }
    upper_cut(nest, area, left, k)
}

// Where along the last dimension all of an area in the dimensions before it is in the shape.
fn inner_of(nest: Nest, area: Window) -> Interval
    requires { Accepted nest × Few nest area }
    ensures { Inner nest area nest.bounds result }
{
    let n = nest.bounds;
    let lengths = nest.lengths;
    let mut left = Interval {
        from: 0,
        to: lengths[nest.dimensions - 1],
    };
    for k in 0..n {
        left = cut_by(nest, area, left, k);
    }
    left
}

// The places of a dimension that have one before them and after them another of full length, where the cells of both tiles, and those
// at most so far after, lie in an interval.
fn places_in(inner: Interval, tiling: usize, length: usize, most: usize) -> Interval
    requires { (1 ≤ tiling) × ((tiling ≤ 1024) × ((length ≤ 1024) × ((most ≤ 1024) × (inner.from ≤ 8388608)))) }
    ensures { PlacesIn inner tiling length most result }
{
    let whole = length / tiling;
    if whole == 0 {
        return Interval { from: 0, to: 0 };
    }
    if inner.to < most {
        return Interval { from: 0, to: 0 };
    }
    Interval {
        from: (inner.from + tiling - 1) / tiling + 1,
        to: (whole - 1).min((inner.to - most) / tiling),
    }
}

// A row of tiles, by the tile at a place of it: the places along the last dimension of those that are like the tile so far before them.
fn line_by(layout: &Layout, tile: usize, at: [usize; 4], places: Interval, far: usize) -> TileRow
    requires sized { (tile < box_tiles layout.now.nest) × Has at (tile_place layout.now.nest tile) layout.now.nest.dimensions }
    requires from_bound { (places.from ≤ 8400000) × (places.to ≤ 1024) }
    ensures { (result.far ≡ far) × ((result.from ≡ tile - get_or at (last layout.now.nest) 0 + places.from)
        × (result.to ≡ tile - get_or at (last layout.now.nest) 0 + places.to)) }
{
    let last = layout.nest.dimensions - 1;
    let across = layout.sizes.across;
    let first = tile - at[last];
    TileRow {
        from: first + places.from,
        to: first + places.to,
        far,
        end: first + across[last],
    }
}

// The row of a tile: those of its tiles that lie, with all that is near, wholly inside the shape, as the tile before them does.
fn stretch_of(layout: &Layout, most: [usize; 4], tile: usize, at: [usize; 4]) -> TileRow
    requires { (tile < box_tiles layout.now.nest) × (Farthest layout.now.nest most × Has at (tile_place layout.now.nest tile) layout.now.nest.dimensions) }
    ensures { Lined layout.now.nest result.far result.from result.to }
{
    let area = area_of(layout.nest, most, at);
    let inner = inner_of(layout.nest, area);
    let last = layout.nest.dimensions - 1;
    let tiling = layout.nest.tiling;
    let lengths = layout.nest.lengths;
    let places = places_in(inner, tiling[last], lengths[last], most[last]);
    line_by(layout, tile, at, places, 1)
}

// ---- rows that are like a row before them

// Whether bound k moves along with so many tiles in each dimension.
fn goes_along(nest: Nest, steps: [usize; 4], k: usize) -> bool
    requires { Accepted nest × ((k < nest.bounds) × Short steps) }
    ensures { result ≡ true → KeptBy nest steps k }
{
    let tiling = nest.tiling;
    let j = nest.bounded[k] as usize;
    let e = nest.earlier[k] as usize;
    let slope = nest.slopes[k] as usize;
    let before = steps[e] * tiling[e];
    slope * before == steps[j] * tiling[j] + before
}

// Whether every bound does.
fn keeps(nest: Nest, steps: [usize; 4]) -> bool
    requires { Accepted nest × Short steps }
    ensures { result ≡ true → Kept nest steps }
{
    (0..nest.bounds).all(|k| goes_along(nest, steps, k))
}

// One tile along dimension j, and so many along the last.
fn steps_by(last: usize, j: usize, more: usize) -> [usize; 4]
    requires { (j < last) × ((last < 4) × (more ≤ 1)) }
    ensures { Short result }
{
    let mut steps = [0; 4];
    steps[last] = more;
    steps[j] = 1;
    steps
}

// A move by one tile along a dimension before the last, and so many along the last, that every bound moves along with, if there is one.
fn move_by(layout: &Layout, more: usize) -> Option<Move>
    requires { more ≤ 1 }
    ensures { IfSome result (λ by. Moves layout.now.nest by.steps by.far) }
{
    let last = layout.nest.dimensions - 1;
    let across = layout.sizes.across;
    for j in 0..last {
        let steps = steps_by(last, j, more);
        if keeps(layout.nest, steps) {
            return Some(Move {
                steps,
                far: layout::rank(across, steps, layout.nest.dimensions),
            });
        }
    }
    None
}

// A move that every bound moves along with, if one of those looked at is: first those that stay where they are along the last dimension.
pub fn move_of(layout: &Layout) -> Option<Move>
    ensures { IfSome result (λ by. Moves layout.now.nest by.steps by.far) }
{
    move_by(layout, 0).or_else(|| move_by(layout, 1))
}

// Whether a tile that stands so far along a dimension has one so many before it and, where that is not itself, one of full length after it.
fn behind(at: usize, steps: usize, tiling: usize, length: usize) -> bool
    requires { (at ≤ 1024) × (tiling ≤ 1024) }
    ensures { result ≡ true → Behind at steps tiling length }
{
    if steps == 0 {
        return true;
    }
    if at < steps {
        return false;
    }
    (at + 2) * tiling <= length
}

// The places along the last dimension of the tiles in the row of a place that are like the tile a move before them.
fn moved_in(layout: &Layout, steps: [usize; 4], at: [usize; 4]) -> Interval
    requires { Short steps × ((j : ℕ) → j < layout.now.nest.dimensions → get_or at j 0 ≤ 1024) }
    ensures { MovedIn layout.now.nest at steps result }
{
    let last = layout.nest.dimensions - 1;
    let tiling = layout.nest.tiling;
    let lengths = layout.nest.lengths;
    let across = layout.sizes.across;
    for j in 0..last {
        if !behind(at[j], steps[j], tiling[j], lengths[j]) {
            return Interval { from: 0, to: 0 };
        }
    }
    if steps[last] == 0 {
        return Interval {
            from: 0,
            to: across[last],
        };
    }
    let all = Interval {
        from: 0,
        to: lengths[last],
    };
    places_in(all, tiling[last], lengths[last], 0)
}

// The row of a tile: by the move, or where none of its tiles is like the one a move before, by those that lie wholly inside.
pub fn line_of(layout: &Layout, most: [usize; 4], by: Option<Move>, tile: usize) -> TileRow
    requires { (tile < box_tiles layout.now.nest) × (Farthest layout.now.nest most × IfSome by (λ m. Moves layout.now.nest m.steps m.far)) }
    ensures { Lined layout.now.nest result.far result.from result.to }
{
    let at = layout.place_of_tile(tile);
    if let Some(by) = by {
        let places = moved_in(layout, by.steps, at);
        if places.from < places.to {
            return line_by(layout, tile, at, places, by.far);
        }
    }
    stretch_of(layout, most, tile, at)
}
