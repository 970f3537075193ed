// The records of a recipe, sixteen bytes each, from a nest: the numbers of each, spelled.
ghost use Rattle.std.specs.Prelude.{◌≡◌, ℕ, ◌+◌, ◌*◌, ◌<◌, ◌≤◌, get_or};
ghost use Rattle.nest.specs.Encode.{dimension_of, bound_of, narrow, distance_of, encode};

use crate::spelling::{bound_record, close_record, dimension_record, narrow_record, wide_record};
use nest::Nest;

fn dimension_of(nest: Nest, j: usize) -> [u8; 16]
    requires { j < 4 }
    ensures { result ≡ dimension_of nest j }
{
    dimension_record(
        nest.lengths[j] as u64,
        nest.tiling[j] as u64,
        nest.counts[j] as u64,
    )
}

fn bound_of(nest: Nest, k: usize) -> [u8; 16]
    requires { k < 4 }
    ensures { result ≡ bound_of nest k }
{
    bound_record(
        u64::from(nest.sides[k]),
        u64::from(nest.bounded[k]),
        u64::from(nest.earlier[k]),
        u64::from(nest.slopes[k]),
        u64::from(nest.offsets[k]),
    )
}

// Each component of distance e fits a byte.
fn narrow(nest: Nest, e: usize) -> bool
    requires { e < 8 }
    ensures { result ≡ narrow nest e }
{
    let components = nest.components;
    (0..4).all(|j| components[4 * e + j] < 256)
}

// Kind 4 only where kind 2 can't hold the distance.
fn distance_of(nest: Nest, e: usize) -> [u8; 16]
    requires { e < 8 }
    ensures { result ≡ distance_of nest e }
{
    let d = nest.components;
    let at = 4 * e;
    let d1 = d[at] as u64;
    let d2 = d[at + 1] as u64;
    let d3 = d[at + 2] as u64;
    let d4 = d[at + 3] as u64;
    if narrow(nest, e) {
        return narrow_record(d1, d2, d3, d4, nest.weights[e]);
    }
    wide_record(d1, d2, d3, d4, nest.weights[e])
}

// Record r: the dimensions, the bounds, the distances, the close.
pub fn record_of(nest: Nest, r: usize) -> [u8; 16]
    requires { ((nest.dimensions ≤ 4) × (nest.bounds ≤ 4))
        × ((nest.distances ≤ 8) × (r ≤ nest.dimensions + nest.bounds + nest.distances)) }
    ensures { (i : ℕ) → i < 16 → get_or result i 0 ≡ get_or (encode nest) (16 * r + i) 0 }
{
    if r < nest.dimensions {
        return dimension_of(nest, r);
    }
    let k = r - nest.dimensions;
    if k < nest.bounds {
        return bound_of(nest, k);
    }
    let e = k - nest.bounds;
    if e < nest.distances {
        return distance_of(nest, e);
    }
    close_record(nest.shift, nest.boundary)
}
