// Rows of a nest over the loops of `kernels`: one by one, and four side by side.
// Four rows go each one column behind the row before it, or in the same columns where no row reads another.
#![tactic(auto)]

ghost use Rattle.std.specs.Prelude.{◌≡◌, ◌+◌, ◌*◌, ◌-◌, ◌/◌, ◌%◌, ◌^◌, ◌≤◌, ◌<◌, length, get_or};
ghost use Rattle.base.specs.Lists.{store_all};
ghost use Rattle.nest.specs.declared.Nest.{Nest};
ghost use Rattle.plan.specs.Geometry.{value};
ghost use Rattle.bands.specs.lagged.Bands.{four, rows_of, numbered, BandGiven};

use crate::edge_rows::edge_row;
use crate::lagged::band;
use kernels::wave;

pub mod edge_rows; // edge_rows.rt: one row, whose first cells read the boundary's word in place of a cell's
pub mod lagged; // lagged.rt: four rows, each one column behind the row before it

// The values of four rows that read no row but themselves, in the same columns: no row need be ahead of another for its words to
// be made beside theirs, and no columns are left.
fn beside(
    source: &[u32],
    memory: &mut [u32],
    shift: u64,
    boundary: u64,
    n: usize,
    first: &[usize; 8],
    back: &[usize; 8],
    weights: &[u64; 8],
    a: usize,
    b: usize,
    c: usize,
    d: usize,
    component: usize,
    from: usize,
    width: usize,
)
    requires { (x : Nest) × BandGiven (numbered x n shift boundary) first.now back.now weights.now source.now memory.old a b c d component from width }
    ensures { (x : Nest) → BandGiven (numbered x n shift boundary) first.now back.now weights.now source.now
        memory.old a b c d component from width
        → memory.new ≡ store_all (value (numbered x n shift boundary) source.now) memory.old (rows_of (four a b c d) width 4) }
{
    let few = from - 3;
    let full = component + few;
    edge_row(
        source, memory, shift, boundary, n, first, back, weights, full, a, component, few,
    );
    edge_row(
        source, memory, shift, boundary, n, first, back, weights, full, b, component, few,
    );
    edge_row(
        source, memory, shift, boundary, n, first, back, weights, full, c, component, few,
    );
    edge_row(
        source, memory, shift, boundary, n, first, back, weights, full, d, component, few,
    );
    let lag = b - a;
    let rest = width - few;
    wave(source, memory, shift, n, back, weights, a + few, lag, rest);
}

// The values of four rows, by whichever way is faster.
pub fn side_by_side(
    source: &[u32],
    memory: &mut [u32],
    shift: u64,
    boundary: u64,
    n: usize,
    first: &[usize; 8],
    back: &[usize; 8],
    weights: &[u64; 8],
    a: usize,
    b: usize,
    c: usize,
    d: usize,
    component: usize,
    from: usize,
    width: usize,
    own: bool,
)
    requires { (x : Nest) × BandGiven (numbered x n shift boundary) first.now back.now weights.now source.now memory.old a b c d component from width }
    ensures { (x : Nest) → BandGiven (numbered x n shift boundary) first.now back.now weights.now source.now
        memory.old a b c d component from width
        → memory.new ≡ store_all (value (numbered x n shift boundary) source.now) memory.old (rows_of (four a b c d) width 4) }
{
    if own {
        beside(
            source, memory, shift, boundary, n, first, back, weights, a, b, c, d, component, from,
            width,
        );
        return;
    }
    band(
        source, memory, shift, boundary, n, first, back, weights, a, b, c, d, component, from,
        width,
    );
}
