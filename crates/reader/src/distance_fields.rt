// A distance's record: its components and its weight, of either kind, and what line 18 of document 01's table tests of them.
ghost use Rattle.std.specs.Prelude.{◌≡◌, ℕ, ◌+◌, ◌*◌, ◌/◌, ◌%◌, ◌<◌, ◌≤◌, length};
ghost use Rattle.nest.specs.Reader.{component_at, weight_at, filled, narrow_at, needlessly_wide};

use crate::fields::table;
use base::half_at;

// ---- components and weights

// Component j of the distance in record r.
fn component_at(encoded: &[u8], r: usize, j: usize) -> usize
    requires { (j < 4) × (16 * r + 16 ≤ length encoded.now) }
    ensures { result ≡ component_at encoded.now r j }
{
    let at = 16 * r;
    if encoded[at] == 4 {
        return half_at(encoded, at + (2 + 2 * j));
    }
    usize::from(encoded[at + (2 + j)])
}

// The components, four a distance, the first in record r.
pub fn components_of(encoded: &[u8], r: usize, e: usize) -> [usize; 32]
    requires { (r ≤ 8) × ((e ≤ 8) × (16 * (r + e) ≤ length encoded.now)) }
    ensures { result ≡ filled 32 (4 * e) (λ (i : ℕ). component_at encoded.now (r + i / 4) (i % 4)) }
{
    table(4 * e, 0, |i: usize| component_at(encoded, r + i / 4, i % 4))
}

// The weight of the distance in record r.
fn weight_at(encoded: &[u8], r: usize) -> usize
    requires { 16 * r + 16 ≤ length encoded.now }
    ensures { result ≡ weight_at encoded.now r }
{
    let at = 16 * r;
    if encoded[at] == 4 {
        return half_at(encoded, at + 10);
    }
    half_at(encoded, at + 6)
}

// The weights, one a distance, the first in record r.
pub fn weights_of(encoded: &[u8], r: usize, e: usize) -> [u64; 8]
    requires { (r ≤ 8) × ((e ≤ 8) × (16 * (r + e) ≤ length encoded.now)) }
    ensures { result ≡ filled 8 e (λ (i : ℕ). weight_at encoded.now (r + i)) }
{
    table(e, 0, |i: usize| weight_at(encoded, r + i) as u64)
}

// ---- line 18

// Record r is a distance of kind 4, and each of its components fits a byte.
fn narrow_at(encoded: &[u8], r: usize) -> bool
    requires { 16 * r + 16 ≤ length encoded.now }
    ensures { result ≡ narrow_at encoded.now r }
{
    encoded[16 * r] == 4 && (0..4).all(|j| component_at(encoded, r, j) < 256)
}

pub fn needlessly_wide(encoded: &[u8]) -> bool
    ensures { result ≡ needlessly_wide encoded.now }
{
    (0..encoded.len() / 16).any(|r| narrow_at(encoded, r))
}
