// What lines 5 and 6 of document 01's table test of a nest: its distances, and its tiles against them.
ghost use Rattle.std.specs.Prelude.{◌≡◌, ℕ, ◌<◌, ◌≤◌, eqb};
ghost use Rattle.base.specs.Tests.{every, some};
ghost use Rattle.nest.specs.Nest.{component};
ghost use Rattle.nest.specs.Reader.{no_length, same, beyond, faulty, bad_distance, reached, bad_tile};

use nest::{MOST_LENGTH, Nest};

// No length of a box or of a tile.
pub fn no_length(v: usize) -> bool
    ensures { result ≡ no_length v }
{
    v == 0 || v > MOST_LENGTH
}

// ---- line 5

fn all_zero(nest: Nest, e: usize) -> bool
    requires { e < 8 }
    ensures { result ≡ every (λ (j : ℕ). eqb (component nest e j) 0) 4 }
{
    (0..4).all(|j| nest.components[4 * e + j] == 0)
}

fn same(nest: Nest, e: usize, f: usize) -> bool
    requires { (e < 8) × (f < 8) }
    ensures { result ≡ same nest e f }
{
    (0..4).all(|j| nest.components[4 * e + j] == nest.components[4 * f + j])
}

// The same as an earlier distance.
fn repeated(nest: Nest, e: usize) -> bool
    requires { e < 8 }
    ensures { result ≡ some (same nest e) e }
{
    (0..e).any(|f| same(nest, e, f))
}

// Not zero beyond the dimensions.
fn beyond(nest: Nest, e: usize) -> bool
    requires { e < 8 }
    ensures { result ≡ beyond nest e }
{
    (0..4).any(|j| nest.dimensions <= j && 0 < nest.components[4 * e + j])
}

fn faulty(nest: Nest, e: usize) -> bool
    requires { e < 8 }
    ensures { result ≡ faulty nest e }
{
    all_zero(nest, e) || repeated(nest, e) || beyond(nest, e)
}

pub fn bad_distance(nest: Nest) -> bool
    requires { nest.distances ≤ 8 }
    ensures { result ≡ bad_distance nest }
{
    (0..nest.distances).any(|e| faulty(nest, e))
}

// ---- line 6

// Some distance goes farther in this dimension than a tile is long; one as far as the tile is allowed (W-201).
fn reached(nest: Nest, j: usize) -> bool
    requires { (j < 4) × (nest.distances ≤ 8) }
    ensures { result ≡ reached nest j }
{
    (0..nest.distances).any(|e| nest.tiling[j] < nest.components[4 * e + j])
}

pub fn bad_tile(nest: Nest) -> bool
    requires { (nest.dimensions ≤ 4) × (nest.distances ≤ 8) }
    ensures { result ≡ bad_tile nest }
{
    (0..nest.dimensions).any(|j| no_length(nest.tiling[j]) || reached(nest, j))
}
