// The reader: a recipe's bytes to a nest by value, or the first line of document 01's table that refuses it.
// `read` takes any bytes. Lines 1, 2 and 18 test the bytes (`fields`, `distance_fields`), the others the nest made of them (5 and 6: `distances`).
#![tactic(auto)]

ghost use Rattle.std.specs.Prelude.{◌≡◌, ℕ, ◌+◌, ◌*◌, ◌<◌, ◌≤◌, length, get_or, ltb};
ghost use Rattle.base.specs.Tests.{◌and◌, not, some, keep};
ghost use Rattle.base.specs.Numbers.{first_of};
ghost use Rattle.base.specs.Refusals.{number_of};
ghost use Rattle.nest.specs.Nest.{processor_count, cells, box_tiles};
ghost use Rattle.nest.specs.Shape.{in_shape, tiles};
ghost use Rattle.nest.specs.Spans.{Framed, Tiled, InRange};
ghost use Rattle.nest.specs.Reader.{nest_by, is_spread, bad_length, bad_distance, bad_tile, bad_spread, last_spread};
ghost use Rattle.nest.specs.Reader.{bad_processors, too_many_tiles, nest_lines, Reads};

use crate::distance_fields::{components_of, needlessly_wide, weights_of};
use crate::distances::{bad_distance, bad_tile, no_length};
use crate::fields::{
    bytes_of, count_distances, count_kind, halves, offsets_of, ragged, slopes_of, spread_of,
    well_formed,
};
use base::refusal::Refusal;
use nest::division::tiles_along;
use nest::{
    MOST_CELLS, MOST_PROCESSORS, MOST_TILES, Nest, mark_row, product_of, row_count, row_place,
    span_of,
};

pub mod distance_fields; // distance_fields.rt: a distance's record of either kind, and line 18
pub mod fields; // fields.rt: the other records' fields, and lines 1 and 2
pub mod distances; // distances.rt: lines 5 and 6: distances, and tile lengths against them

// ---- the nest of well-formed bytes

// The nest of n dimensions, b bounds and e distances.
fn nest_by(encoded: &[u8], n: usize, b: usize, e: usize) -> Nest
    requires { ((n ≤ 4) × (b ≤ 4)) × ((e ≤ 8) × (16 * (n + b + e + 1) ≤ length encoded.now)) }
    ensures { result ≡ nest_by encoded.now n b e }
{
    let first = n + b;
    let close = 16 * (first + e);
    Nest {
        dimensions: n,
        spread: spread_of(encoded, n),
        distances: e,
        bounds: b,
        lengths: halves(encoded, n, 2),
        tiling: halves(encoded, n, 4),
        counts: halves(encoded, n, 6),
        components: components_of(encoded, first, e),
        weights: weights_of(encoded, first, e),
        sides: bytes_of(encoded, n, b, 1),
        bounded: bytes_of(encoded, n, b, 2),
        earlier: bytes_of(encoded, n, b, 3),
        slopes: slopes_of(encoded, n, b),
        offsets: offsets_of(encoded, n, b),
        shift: u64::from(encoded[close + 1]),
        boundary: u64::from(base::word_at(encoded, close + 4)),
    }
}

// ---- line 3

fn bad_length(nest: Nest) -> bool
    requires { nest.dimensions ≤ 4 }
    ensures { result ≡ bad_length nest }
{
    (0..nest.dimensions).any(|j| no_length(nest.lengths[j]))
}

// ---- lines 16 and 17: which dimensions are spread

// Dimension j is not spread and the next one is.
fn spread_after(nest: Nest, j: usize) -> bool
    requires { j < 3 }
    ensures { result ≡ (not (is_spread nest j) and is_spread nest (j + 1)) }
{
    nest.counts[j] == 0 && nest.counts[j + 1] > 0
}

fn bad_spread(nest: Nest) -> bool
    requires { (1 ≤ nest.dimensions) × (nest.dimensions ≤ 4) }
    ensures { result ≡ bad_spread nest }
{
    let last = nest.dimensions - 1;
    nest.counts[0] == 0 || (0..last).any(|j| spread_after(nest, j))
}

fn last_spread(nest: Nest) -> bool
    requires { (1 ≤ nest.dimensions) × (nest.dimensions ≤ 4) }
    ensures { result ≡ last_spread nest }
{
    let last = nest.dimensions - 1;
    nest.counts[last] > 0
}

// ---- line 7

fn bad_processors(nest: Nest) -> bool
    requires { (nest.spread ≤ 4) × ((j : ℕ) → processor_count nest j < 65536) }
    ensures { result ≡ bad_processors nest }
{
    let counts = nest.counts;
    product_of(counts, nest.spread) > MOST_PROCESSORS
}

// ---- line 20

fn has_cell(nest: Nest) -> bool
    requires { Framed nest }
    ensures { result ≡ some (in_shape nest) (cells nest) }
{
    if nest.bounds == 0 {
        return true;
    }
    let rows = row_count(nest);
    for q in 0..rows {
        let at = row_place(nest, q);
        let s = span_of(&nest, &at);
        if s.from < s.to {
            return true;
        }
    }
    false
}

// ---- line 8

// The tiles of the box.
fn box_tiles(nest: Nest) -> usize
    requires { Framed nest × Tiled nest }
    ensures { result ≡ box_tiles nest }
{
    let n = nest.dimensions;
    let mut total: usize = 1;
    for j in 0..n {
        total = total * tiles_along(nest.lengths[j], nest.tiling[j]);
    }
    total
}

// How many of the first n are marked.
fn marked(marks: &[u8], n: usize) -> usize
    requires { n ≤ length marks.now }
    ensures { result ≡ length (keep (λ u. ltb 0 (get_or marks.now u 0)) n) }
{
    marks[..n].iter().filter(|&&mark| mark > 0).count()
}

// How many tiles hold a cell of the shape: each row marks its own.
fn tile_total(nest: Nest, boxed: usize) -> usize
    requires { (Framed nest × Tiled nest) × ((boxed ≡ box_tiles nest) × (boxed ≤ 16384)) }
    ensures { result ≡ tiles nest }
{
    let mut marks = [0u8; MOST_CELLS];
    let rows = row_count(nest);
    for q in 0..rows {
        mark_row(nest, q, &mut marks);
    }
    marked(&marks, boxed)
}

// Counts only where the box has too many; without bounds all its tiles hold a cell.
fn too_many_tiles(nest: Nest) -> bool
    requires { (Framed nest × Tiled nest) × (cells nest ≤ 16384) }
    ensures { result ≡ too_many_tiles nest }
{
    let boxed = box_tiles(nest);
    if boxed <= MOST_TILES {
        return false;
    }
    if nest.bounds == 0 {
        return true;
    }
    tile_total(nest, boxed) > MOST_TILES
}

// ---- the answer

// The first of the lines behind 2 that refuses the nest, if any; `needless`: its bytes are needlessly wide, which is line 18.
fn check_lines(nest: Nest, needless: bool) -> Result<(), Refusal>
    requires { InRange nest }
    ensures { number_of result ≡ first_of (nest_lines needless nest) }
{
    if bad_length(nest) {
        return Err(Refusal::Length);
    }
    let lengths = nest.lengths;
    if product_of(lengths, nest.dimensions) > MOST_CELLS {
        return Err(Refusal::TooLarge);
    }
    if needless {
        return Err(Refusal::TooWide);
    }
    if !has_cell(nest) {
        return Err(Refusal::Empty);
    }
    if bad_distance(nest) {
        return Err(Refusal::Distance);
    }
    if bad_tile(nest) {
        return Err(Refusal::Tile);
    }
    if bad_spread(nest) {
        return Err(Refusal::SpreadOrder);
    }
    if last_spread(nest) {
        return Err(Refusal::LastSpread);
    }
    if bad_processors(nest) {
        return Err(Refusal::Boards);
    }
    if too_many_tiles(nest) {
        return Err(Refusal::Tiles);
    }
    Ok(())
}

// The nest that the bytes give, or the first line that is true of them.
pub fn read(encoded: &[u8]) -> Result<Nest, Refusal>
    ensures { Reads encoded.now result }
{
    if ragged(encoded) {
        return Err(Refusal::Ragged);
    }
    let n = count_kind(encoded, 1);
    let b = count_kind(encoded, 5);
    let e = count_distances(encoded);
    if !well_formed(encoded, n, b, e) {
        return Err(Refusal::StrayRecord);
    }
    let nest = nest_by(encoded, n, b, e);
    check_lines(nest, needlessly_wide(encoded))?;
    Ok(nest)
}
