// A recipe's bytes: its fields, what lines 1 and 2 of document 01's table test of them, and the values that a nest is made of. Those of a distance are
// in distance_fields.rt.
ghost use Rattle.std.specs.Prelude.{◌≡◌, false, ℕ, ◌+◌, ◌*◌, ◌-◌, ◌/◌, ◌<◌, ◌≤◌, length, get_or, ltb, leb};
ghost use Rattle.base.specs.Tests.{◌and◌, every, keep};
ghost use Rattle.base.specs.Bytes.{half};
ghost use Rattle.nest.specs.Reader.{of_kind, distances_of, slope_at, offset_at, filled};
ghost use Rattle.reader.specs.Tables.{IsTable};
ghost use Rattle.nest.specs.Reader.{ragged, blank, bound_fits, fits_at, well_formed};

use base::half_at;

// ---- fields

// A byte as a number.
fn byte_at(encoded: &[u8], at: usize) -> usize
    requires { at < length encoded.now }
    ensures value { result ≡ get_or encoded.now at 0 }
    ensures upper_bound { result < 256 }
{
    usize::from(encoded[at])
}

// The slope of the bound in record r, plus 1.
fn slope_at(encoded: &[u8], r: usize) -> usize
    requires { 16 * r + 16 ≤ length encoded.now }
    ensures { result ≡ slope_at encoded.now r }
{
    (byte_at(encoded, 16 * r + 4) + 1) % 256
}

// Its offset, plus 32,768.
fn offset_at(encoded: &[u8], r: usize) -> usize
    requires { 16 * r + 16 ≤ length encoded.now }
    ensures { result ≡ offset_at encoded.now r }
{
    (half_at(encoded, 16 * r + 6) + 32768) % 65536
}

// How many records have the kind.
pub fn count_kind(encoded: &[u8], wanted: u8) -> usize
    ensures { result ≡ of_kind encoded.now wanted }
{
    let records = encoded.len() / 16;
    (0..records).filter(|&r| encoded[16 * r] == wanted).count()
}

// How many are distances, of either kind.
pub fn count_distances(encoded: &[u8]) -> usize
    ensures { result ≡ distances_of encoded.now }
{
    let narrow = count_kind(encoded, 2);
    let wide = count_kind(encoded, 4);
    narrow + wide
}

// ---- line 1

pub fn ragged(encoded: &[u8]) -> bool
    ensures { result ≡ ragged encoded.now }
{
    encoded.is_empty() || encoded.len() % 16 != 0
}

// ---- line 2

// All bytes of a part are zero.
fn blank(encoded: &[u8], at: usize, count: usize) -> bool
    requires { at + count ≤ length encoded.now }
    ensures { result ≡ blank encoded.now at count }
{
    (0..count).all(|i| encoded[at + i] == 0)
}

// The bytes that a dimension or a distance doesn't name: byte 1, and those from the end of its fields on.
fn fields_fit(encoded: &[u8], at: usize, end: usize) -> bool
    requires { (end ≤ 16) × (at + 16 ≤ length encoded.now) }
    ensures { result ≡ (blank encoded.now (at + 1) 1 and blank encoded.now (at + end) (16 - end)) }
{
    blank(encoded, at + 1, 1) && blank(encoded, at + end, 16 - end)
}

// The close: its shift, and the bytes that it doesn't name.
fn close_fits(encoded: &[u8], at: usize) -> bool
    requires { at + 16 ≤ length encoded.now }
    ensures { result ≡ (ltb (get_or encoded.now (at + 1) 0) 32 and blank encoded.now (at + 2) 2
        and blank encoded.now (at + 8) 8) }
{
    encoded[at + 1] < 32 && blank(encoded, at + 2, 2) && blank(encoded, at + 8, 8)
}

// A bound: its side, its dimensions and its slope, and the bytes that it doesn't name.
fn bound_fits(encoded: &[u8], n: usize, r: usize) -> bool
    requires { 16 * r + 16 ≤ length encoded.now }
    ensures { result ≡ bound_fits encoded.now n r }
{
    let at = 16 * r;
    let dimension = byte_at(encoded, at + 2);
    encoded[at + 1] < 2
        && dimension < n
        && byte_at(encoded, at + 3) < dimension
        && slope_at(encoded, r) < 3
        && blank(encoded, at + 5, 1)
        && blank(encoded, at + 8, 8)
}

// Record r is one of those from one record up to another.
fn stands(from: usize, to: usize, r: usize) -> bool
    ensures { result ≡ (leb from r and ltb r to) }
{
    from <= r && r < to
}

// A dimension or a distance, one of those records, with fields up to a byte.
fn fields_fit_at(encoded: &[u8], r: usize, from: usize, to: usize, end: usize) -> bool
    requires { (end ≤ 16) × (16 * r + 16 ≤ length encoded.now) }
    ensures { result ≡ ((leb from r and ltb r to)
        and (blank encoded.now (16 * r + 1) 1 and blank encoded.now (16 * r + end) (16 - end))) }
{
    stands(from, to, r) && fields_fit(encoded, 16 * r, end)
}

// A bound, one of the records behind the n dimensions.
fn bound_fits_at(encoded: &[u8], n: usize, r: usize, to: usize) -> bool
    requires { 16 * r + 16 ≤ length encoded.now }
    ensures { result ≡ ((leb n r and ltb r to) and bound_fits encoded.now n r) }
{
    stands(n, to, r) && bound_fits(encoded, n, r)
}

// The close, with all other records before it.
fn close_fits_at(encoded: &[u8], r: usize, from: usize) -> bool
    requires { 16 * r + 16 ≤ length encoded.now }
    ensures { result ≡ (leb from r and (ltb (get_or encoded.now (16 * r + 1) 0) 32 and blank encoded.now (16 * r + 2) 2
        and blank encoded.now (16 * r + 8) 8)) }
{
    from <= r && close_fits(encoded, 16 * r)
}

// The kind byte selects where record r may stand and what it is checked for, among n dimensions, b bounds, e distances and the close; any other kind
// is a stray record.
fn fits_at(encoded: &[u8], n: usize, b: usize, e: usize, r: usize) -> bool
    requires { (n + b + e < 65536) × (16 * r + 16 ≤ length encoded.now) }
    ensures { result ≡ fits_at encoded.now n b e r }
{
    let first = n + b;
    let close = first + e;
    let kind = encoded[16 * r];
    match kind {
        1 => fields_fit_at(encoded, r, 0, n, 8),
        2 => fields_fit_at(encoded, r, first, close, 8),
        3 => close_fits_at(encoded, r, close),
        4 => fields_fit_at(encoded, r, first, close, 12),
        5 => bound_fits_at(encoded, n, r, first),
        _ => false,
    }
}

fn all_fit(encoded: &[u8], n: usize, b: usize, e: usize) -> bool
    requires { n + b + e < 65536 }
    ensures { result ≡ every (fits_at encoded.now n b e) (length encoded.now / 16) }
{
    (0..encoded.len() / 16).all(|r| fits_at(encoded, n, b, e, r))
}

// Counts and order of the kinds, and each record's checks.
pub fn well_formed(encoded: &[u8], n: usize, b: usize, e: usize) -> bool
    ensures { result ≡ well_formed encoded.now n b e }
{
    2 <= n
        && n <= 4
        && b <= 4
        && 1 <= e
        && e <= 8
        && encoded.len() / 16 == n + b + e + 1
        && all_fit(encoded, n, b, e)
}

// ---- the nest of well-formed bytes

// The first n numbers as `of` has them, then none where the table has more room.
pub fn table<T: Copy, const N: usize, F: Fn(usize) -> T>(n: usize, none: T, of: F) -> [T; N]
    requires fits { n ≤ N }
    requires callable { (i : ℕ) → i < n → F.pre of i }
    ensures { IsTable (F.post of) none N n result }
{
    let mut table = [none; N];
    for i in 0..n {
        table[i] = of(i);
    }
    table
}

// One field of the dimensions' records.
pub fn halves(encoded: &[u8], n: usize, field: usize) -> [usize; 4]
    requires { (n ≤ 4) × ((field + 2 ≤ 16) × (16 * n ≤ length encoded.now)) }
    ensures { result ≡ filled 4 n (λ (j : ℕ). half encoded.now (16 * j + field)) }
{
    table(n, 0, |j: usize| half_at(encoded, 16 * j + field))
}

// How many dimensions have a count.
pub fn spread_of(encoded: &[u8], n: usize) -> usize
    requires { (n ≤ 4) × (16 * n ≤ length encoded.now) }
    ensures { result ≡ length (keep (λ (j : ℕ). ltb 0 (half encoded.now (16 * j + 6))) n) }
{
    (0..n).filter(|&j| 0 < half_at(encoded, 16 * j + 6)).count()
}

// One byte of each bound, the first in record n.
pub fn bytes_of(encoded: &[u8], n: usize, b: usize, field: usize) -> [u8; 4]
    requires { ((n ≤ 4) × (b ≤ 4)) × ((field < 16) × (16 * (n + b) ≤ length encoded.now)) }
    ensures { result ≡ filled 4 b (λ (k : ℕ). get_or encoded.now (16 * (n + k) + field) 0) }
{
    table(b, 0, |k: usize| encoded[16 * (n + k) + field])
}

pub fn slopes_of(encoded: &[u8], n: usize, b: usize) -> [u8; 4]
    requires { ((n ≤ 4) × (b ≤ 4)) × (16 * (n + b) ≤ length encoded.now) }
    ensures { result ≡ filled 4 b (λ (k : ℕ). slope_at encoded.now (n + k)) }
{
    table(b, 0, |k: usize| slope_at(encoded, n + k) as u8)
}

pub fn offsets_of(encoded: &[u8], n: usize, b: usize) -> [u16; 4]
    requires { ((n ≤ 4) × (b ≤ 4)) × (16 * (n + b) ≤ length encoded.now) }
    ensures { result ≡ filled 4 b (λ (k : ℕ). offset_at encoded.now (n + k)) }
{
    table(b, 0, |k: usize| offset_at(encoded, n + k) as u16)
}
