// A nest by value, and its rows: the cells of each that are in the shape, and the tiles that hold one.
#![tactic(auto)]

ghost use Rattle.std.specs.Prelude.{◌≡◌, ℕ, ◌+◌, ◌*◌, ◌/◌, ◌<◌, ◌≤◌, length, get_or, replicate, leb};
ghost use Rattle.base.specs.Tests.{◌and◌, pick, product};
ghost use Rattle.nest.specs.Nest.{length_of, tile_length, cells, box_tiles};
ghost use Rattle.nest.specs.Places.{rank, tile_at};
ghost use Rattle.nest.specs.Spans.{Framed, Tiled, Narrow, InBox, Spans, Cuts, Row, Marked, RowMarked, last, spot, within};
ghost use Rattle.nest.specs.Spans.{HasLengths, PlaceWritten, Tileable, tiles_along, tile_on};

use crate::division::{tile_along, tiles_along};

pub mod division; // division.rt: a component divided by a tile length, in 16-bit numbers (W-206), the one such division

// Limits of the reader: so many cells (number 4), ..
pub const MOST_CELLS: usize = 16384;

// .. tiles (number 8), ..
pub const MOST_TILES: usize = 1024;

// .. processors (number 7), ..
pub const MOST_PROCESSORS: usize = 64;

// .. cells along a dimension, of the grid or of a tile (numbers 3 and 6).
pub const MOST_LENGTH: usize = 1024;

// Seven for each tile: three spread dimensions have seven directions.
pub const MOST_MESSAGES: usize = 7168;

// A loop nest with constant distances, cut into tiles: the cells of a box that its bounds leave.
#[derive(Clone, Copy)]
pub struct Nest {
    pub dimensions: usize,
    pub spread: usize,
    pub distances: usize,
    pub bounds: usize,
    pub lengths: [usize; 4],
    pub tiling: [usize; 4],
    pub counts: [usize; 4],
    // four a distance
    pub components: [usize; 32],
    pub weights: [u64; 8],
    // of each bound: 0 for lower or 1 for upper, the dimension bounded, an earlier one, slope + 1, offset + 32,768
    pub sides: [u8; 4],
    pub bounded: [u8; 4],
    pub earlier: [u8; 4],
    pub slopes: [u8; 4],
    pub offsets: [u16; 4],
    pub shift: u64,
    pub boundary: u64,
}

// Components of the last dimension: from the first up to the second, or none.
#[derive(Clone, Copy)]
pub struct Interval {
    pub from: usize,
    pub to: usize,
}

// Four numbers of two bytes have a product of at most eight bytes.
pub fn product_of(values: [usize; 4], n: usize) -> usize
    requires { (n ≤ 4) × ((j : ℕ) → get_or values j 0 < 65536) }
    ensures { result ≡ product (λ (j : ℕ). get_or values j 0) n }
{
    let mut total: usize = 1;
    for j in 0..n {
        total = total * values[j];
    }
    total
}

// ---- rows: the cells that differ in the last dimension alone

// All of a span, or nothing.
fn kept(s: Interval, holds: bool) -> Interval
    ensures { (result.to ≤ s.to) × ((a : ℕ) → within result a ≡ (within s a and holds)) }
{
    if holds {
        return s;
    }
    Interval { from: 0, to: 0 }
}

// Its components that are, with the base, not below the level.
fn above(s: Interval, level: usize, base: usize) -> Interval
    ensures { (result.to ≤ s.to) × ((a : ℕ) → within result a ≡ (within s a and leb level (a + base))) }
{
    if level <= base {
        return s;
    }
    let least = level - base;
    if least <= s.from {
        return s;
    }
    Interval {
        from: least,
        to: s.to,
    }
}

// Its components that are, with the base, not above the level.
fn below(s: Interval, level: usize, base: usize) -> Interval
    ensures { (result.to ≤ s.to) × ((a : ℕ) → within result a ≡ (within s a and leb (a + base) level)) }
{
    if level < base {
        return Interval { from: 0, to: 0 };
    }
    let most = level - base;
    if s.to <= most {
        return s;
    }
    Interval {
        from: s.from,
        to: most + 1,
    }
}

// A lower bound is not above the component, an upper bound not below it.
fn met(lower: bool, level: usize, raised: usize) -> bool
    ensures { result ≡ pick lower (leb level raised) (leb raised level) }
{
    if lower {
        return level <= raised;
    }
    raised <= level
}

// What a bound leaves of a row: of the last dimension its part below or above, of another dimension all or nothing.
fn cut(nest: &Nest, at: &[usize; 4], k: usize, s: Interval) -> Interval
    requires { Framed nest.now × ((k < nest.now.bounds) × Narrow nest.now at.now) }
    ensures { Cuts nest.now at.now k s result }
{
    let sides = nest.sides;
    let bounded = nest.bounded;
    let earlier = nest.earlier;
    let slopes = nest.slopes;
    let offsets = nest.offsets;
    let j = bounded[k] as usize;
    let before = at[earlier[k] as usize];
    let level = slopes[k] as usize * before + offsets[k] as usize;
    let base = before + 32768;
    let lower = sides[k] == 0;
    if j + 1 < nest.dimensions {
        return kept(s, met(lower, level, at[j] + base));
    }
    if lower {
        return above(s, level, base);
    }
    below(s, level, base)
}

// The cells of a row that are in the shape: one span. The nest goes by reference, since a row of a shape asks for several spans, and a nest by value
// is copied for each.
pub fn span_of(nest: &Nest, at: &[usize; 4]) -> Interval
    requires { Framed nest.now × Narrow nest.now at.now }
    ensures { Spans nest.now at.now result }
{
    let mut left = Interval {
        from: 0,
        to: nest.lengths[nest.dimensions - 1],
    };
    for k in 0..nest.bounds {
        left = cut(nest, at, k, left);
    }
    left
}

// The same of a nest and a place by value.
pub fn span(nest: Nest, at: [usize; 4]) -> Interval
    requires { Framed nest × Narrow nest at }
    ensures { Spans nest at result }
{
    span_of(&nest, &at)
}

// Writes the place of number n over the first `left` dimensions: the inverse of a rank, by the same recursion.
fn put_place(lengths: &[usize; 4], at: &mut [usize; 4], n: usize, left: usize)
    requires { (length at.old ≡ 4) × HasLengths lengths.now left }
    ensures { (length at.new ≡ 4) × PlaceWritten lengths.now at.old n left at.new }
{
    if left == 0 {
        return;
    }
    let j = left - 1;
    let m = lengths[j];
    at[j] = n % m;
    put_place(lengths, at, n / m, j);
}

// The place of a row's first cell.
pub fn row_place(nest: Nest, q: usize) -> [usize; 4]
    requires { Framed nest }
    ensures { Row nest q result }
{
    let mut at = [0usize; 4];
    put_place(&nest.lengths, &mut at, q, nest.dimensions - 1);
    at
}

// How many rows there are.
pub fn row_count(nest: Nest) -> usize
    requires { Framed nest }
    ensures { result * length_of nest (last nest) ≡ cells nest }
{
    product_of(nest.lengths, nest.dimensions - 1)
}

// ---- the tiles that hold a cell of a row

// The number, among those of the first `left` dimensions, of the tile that holds a place of a cell.
fn tile_rank(lengths: &[usize; 4], tiling: &[usize; 4], at: &[usize; 4], left: usize) -> usize
    requires { Tileable lengths.now tiling.now at.now left }
    ensures { result ≡ rank (tiles_along lengths.now tiling.now) (tile_on tiling.now at.now) left }
{
    if left == 0 {
        return 0;
    }
    let j = left - 1;
    let r = tile_rank(lengths, tiling, at, j);
    let across = tiles_along(lengths[j], tiling[j]);
    r * across + tile_along(at[j], tiling[j])
}

// The box's number of the tile at a place of a cell.
fn tile_at(nest: Nest, at: &[usize; 4]) -> usize
    requires { (Framed nest × Tiled nest) × InBox nest at.now }
    ensures { result ≡ tile_at nest (λ j. spot at.now j / tile_length nest j) }
{
    tile_rank(&nest.lengths, &nest.tiling, at, nest.dimensions)
}

// Marks the places from one up to another.
pub fn mark(marks: &mut [u8], from: usize, to: usize)
    requires { (from ≤ to) × (to ≤ length marks.old) }
    ensures { Marked marks.old from to marks.new }
{
    for u in from..to {
        marks[u] = 1;
    }
}

// Marks the tiles that hold a cell of row q and of the shape.
pub fn mark_row(nest: Nest, q: usize, marks: &mut [u8])
    requires { (Framed nest × Tiled nest) × ((q * length_of nest (last nest) < cells nest) × (box_tiles nest ≤ length marks.old)) }
    ensures { RowMarked nest q marks.old marks.new }
{
    let at = row_place(nest, q);
    let s = span_of(&nest, &at);
    if s.from < s.to {
        let first = tile_at(nest, &at);
        let length = nest.tiling[nest.dimensions - 1];
        let from = tile_along(s.from, length);
        let to = tile_along(s.to - 1, length);
        mark(marks, first + from, first + to + 1);
    }
}
