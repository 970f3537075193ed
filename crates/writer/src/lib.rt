// The writer: a recipe's fields to its bytes, with the number that the reader would give for them.
// The bytes are made in an array of the largest recipe's size and the reader itself is asked about them, so its lines stand in one place.
#![tactic(auto)]

ghost use Rattle.std.specs.Prelude.{◌≡◌, true, ℕ, List, ◌+◌, ◌*◌, ◌%◌, ◌<◌, ◌≤◌, length, get_or, ltb, All};
ghost use Rattle.base.specs.Tests.{pick, keep, tabulate};
ghost use Rattle.base.specs.Refusals.{number_of};
ghost use Rattle.nest.specs.Reader.{filled};
ghost use Rattle.nest.specs.Encode.{encode};
ghost use Rattle.writer.specs.Fields.{fields, counted, bounds, agree, nest_from};
ghost use Rattle.writer.specs.Tables.{IsTable, AreNumbers};
ghost use Rattle.writer.specs.Writing.{written, fits_in, fits, bounds_fit, nest_writable, write_nest_call, write_call};

use nest::Nest;

mod nest_records; // nest_records.rt: the records of a nest, each spelled from its numbers
pub mod spelling; // spelling.rt: the sixteen bytes of each kind of record
pub mod reading; // reading.rt: the fields of a recipe by value

use base::refusal::Refusal;
use nest_records::record_of;

// ---- the recipe

// Bytes that are right up to a place are right 16 bytes further, the record's.
fn put_record(mut bytes: [u8; 272], at: usize, row: [u8; 16]) -> [u8; 272]
    requires { at + 16 ≤ 272 }
    ensures { (f : ℕ → ℕ) → bytes ≡ filled 272 at f → ((i : ℕ) → i < 16 → get_or row i 0 ≡ f (at + i))
        → result ≡ filled 272 (at + 16) f }
{
    bytes[at..at + 16].copy_from_slice(&row);
    bytes
}

// The recipe, in the largest recipe's space.
fn bytes_of(nest: Nest) -> [u8; 272]
    requires { ((nest.dimensions ≤ 4) × (nest.bounds ≤ 4)) × (nest.distances ≤ 8) }
    ensures { result ≡ filled 272 (16 * (nest.dimensions + nest.bounds + nest.distances + 1)) (λ (p : ℕ). get_or (encode nest) p 0) }
{
    let records = nest.dimensions + nest.bounds + nest.distances + 1;
    let mut bytes = [0u8; 272];
    for r in 0..records {
        let row = record_of(nest, r);
        let next = put_record(bytes, 16 * r, row);
        bytes = next;
    }
    bytes
}

// ---- values that a recipe can hold

// Below the bound, or 0 where there is no field.
fn limit(i: usize, n: usize, bound: usize) -> usize
    ensures { result ≡ pick (ltb i n) bound 1 }
{
    if i < n {
        return bound;
    }
    1
}

// Each of the first n numbers is below the bound, and the others have no field and are 0.
fn fits_in<T: Copy, F: Fn(T) -> usize>(values: &[T], n: usize, bound: usize, of: F) -> bool
    requires callable { All (F.pre of) values.now }
    ensures { (numbers : List ℕ) → AreNumbers (F.post of) values.now numbers → result ≡ fits_in n bound numbers }
{
    for (i, &value) in values.iter().enumerate() {
        if of(value) >= limit(i, n, bound) {
            return false;
        }
    }
    true
}

// How many dimensions have a count.
fn spread_of(counts: [usize; 4], n: usize) -> usize
    requires { n ≤ 4 }
    ensures { result ≡ length (keep (λ (j : ℕ). ltb 0 (get_or counts j 0)) n) }
{
    counts[..n].iter().filter(|&&count| count > 0).count()
}

fn fits(nest: Nest) -> bool
    requires { (nest.dimensions ≤ 4) × (nest.distances ≤ 8) }
    ensures { result ≡ fits nest }
{
    let n = nest.dimensions;
    let e = nest.distances;
    let lengths = fits_in(&nest.lengths, n, 65536, |length: usize| length);
    let tiling = fits_in(&nest.tiling, n, 65536, |tile: usize| tile);
    let counts = fits_in(&nest.counts, n, 65536, |count: usize| count);
    let components = fits_in(&nest.components, 4 * e, 65536, |component: usize| component);
    let weights = fits_in(&nest.weights, e, 65536, |weight: u64| weight as usize);
    lengths
        && tiling
        && counts
        && components
        && weights
        && nest.shift < 256
        && nest.boundary < 4294967296
        && nest.spread == spread_of(nest.counts, n)
}

fn bounds_fit(nest: Nest) -> bool
    ensures { result ≡ bounds_fit nest }
{
    let b = nest.bounds;
    let sides = fits_in(&nest.sides, b, 256, |side: u8| usize::from(side));
    let bounded = fits_in(
        &nest.bounded,
        b,
        256,
        |dimension: u8| usize::from(dimension),
    );
    let earlier = fits_in(
        &nest.earlier,
        b,
        256,
        |dimension: u8| usize::from(dimension),
    );
    let slopes = fits_in(&nest.slopes, b, 256, |slope: u8| usize::from(slope));
    let offsets = fits_in(&nest.offsets, b, 65536, |offset: u16| usize::from(offset));
    sides && bounded && earlier && slopes && offsets
}

// ---- the calls

// A recipe can hold the nest.
fn is_writable(nest: Nest) -> bool
    ensures { result ≡ nest_writable nest }
{
    nest.dimensions <= 4
        && nest.distances <= 8
        && nest.bounds <= 4
        && bounds_fit(nest)
        && fits(nest)
}

// The nest's recipe into the space, which must have exactly its length; or why it is refused, and the space as it was.
// A nest that no recipe can hold is refused as a stray record.
pub fn write_nest(nest: Nest, space: &mut [u8]) -> Result<(), Refusal>
    ensures { written (number_of result) space.new ≡ write_nest_call nest space.old }
{
    if !is_writable(nest) {
        return Err(Refusal::StrayRecord);
    }
    let length = 16 * (nest.dimensions + nest.bounds + nest.distances + 1);
    let bytes = bytes_of(nest);
    let _read = match reader::read(&bytes[..length]) {
        Ok(nest) => nest,
        Err(refusal) => return Err(refusal),
    };
    if space.len() != length {
        return Err(Refusal::Area);
    }
    space.copy_from_slice(&bytes[..length]);
    Ok(())
}

// ---- from fields

// Each number as `of` has it, then none where the table has more room.
pub(crate) fn table<T: Copy, U: Copy, const N: usize, F: Fn(T) -> U>(
    values: &[T],
    none: U,
    of: F,
) -> [U; N]
    requires fits { length values.now ≤ N }
    requires callable { All (F.pre of) values.now }
    ensures { IsTable (F.post of) values.now none N result }
{
    let mut table = [none; N];
    for (i, &value) in values.iter().enumerate() {
        table[i] = of(value);
    }
    table
}

fn nest_from(
    lengths: &[u16],
    tiling: &[u16],
    counts: &[u16],
    components: &[u16],
    weights: &[u16],
    sides: &[u8],
    bounded: &[u8],
    earlier: &[u8],
    slopes: &[u8],
    offsets: &[u16],
    shift: u8,
    boundary: u32,
) -> Nest
    requires { agree (fields lengths.now tiling.now counts.now components.now weights.now sides.now bounded.now
        earlier.now slopes.now offsets.now shift boundary) ≡ true }
    ensures { result ≡ nest_from (fields lengths.now tiling.now counts.now components.now
        weights.now sides.now bounded.now earlier.now slopes.now
        offsets.now shift boundary) }
{
    let n = lengths.len();
    let spread_over = table(counts, 0, |count: u16| usize::from(count));
    Nest {
        dimensions: n,
        spread: spread_of(spread_over, n),
        distances: weights.len(),
        bounds: sides.len(),
        lengths: table(lengths, 0, |length: u16| usize::from(length)),
        tiling: table(tiling, 0, |tile: u16| usize::from(tile)),
        counts: spread_over,
        components: table(components, 0, |component: u16| usize::from(component)),
        weights: table(weights, 0, |weight: u16| u64::from(weight)),
        sides: table(sides, 0, |number: u8| number),
        bounded: table(bounded, 0, |number: u8| number),
        earlier: table(earlier, 0, |number: u8| number),
        slopes: table(slopes, 0, |slope: u8| slope.wrapping_add(1)),
        offsets: table(offsets, 0, |offset: u16| offset.wrapping_add(32768)),
        shift: u64::from(shift),
        boundary: u64::from(boundary),
    }
}

// Lists of these lengths agree.
fn counted(lengths: usize, tiling: usize, counts: usize, components: usize, weights: usize) -> bool
    ensures { result ≡ counted lengths tiling counts components weights }
{
    lengths <= 4
        && weights <= 8
        && tiling == lengths
        && counts == lengths
        && components == 4 * weights
}

// The bounds' lists of these lengths agree.
fn bounds(sides: usize, bounded: usize, earlier: usize, slopes: usize, offsets: usize) -> bool
    ensures { result ≡ bounds sides bounded earlier slopes offsets }
{
    sides <= 4 && bounded == sides && earlier == sides && slopes == sides && offsets == sides
}

// The recipe of the fields: of each dimension its length, tile length and processor count, of each distance its four components and
// its weight, of each bound its side, dimension, earlier dimension, slope and offset, these two as the recipe's signed bytes have them.
// Lists that disagree give 2; else as `write_nest`.
pub fn write(
    lengths: &[u16],
    tiling: &[u16],
    counts: &[u16],
    components: &[u16],
    weights: &[u16],
    sides: &[u8],
    bounded: &[u8],
    earlier: &[u8],
    slopes: &[u8],
    offsets: &[u16],
    shift: u8,
    boundary: u32,
    space: &mut [u8],
) -> u32
    ensures { written result space.new
        ≡ write_call (fields lengths.now tiling.now counts.now components.now
        weights.now sides.now bounded.now earlier.now slopes.now
        offsets.now shift boundary) space.old }
{
    let dimensions_counted = counted(
        lengths.len(),
        tiling.len(),
        counts.len(),
        components.len(),
        weights.len(),
    );
    let bounds_counted = bounds(
        sides.len(),
        bounded.len(),
        earlier.len(),
        slopes.len(),
        offsets.len(),
    );
    if !dimensions_counted || !bounds_counted {
        return Refusal::StrayRecord.number();
    }
    let nest = nest_from(
        lengths, tiling, counts, components, weights, sides, bounded, earlier, slopes, offsets,
        shift, boundary,
    );
    base::refusal::number_of(&write_nest(nest, space))
}
