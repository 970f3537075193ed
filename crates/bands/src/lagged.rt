// Four rows of a nest side by side, each one column behind the row before it.
//
// The cells of a row wait for each other. So four rows go side by side, each one column behind the row before it: what a cell
// reads has a lower number and stands in no later column, so it is stored by then, and the words are those of index order.
ghost use Rattle.std.specs.Prelude.{◌≡◌, ◌+◌, ◌*◌, ◌-◌, ◌/◌, ◌%◌, ◌^◌, ◌≤◌, ◌<◌, length, get_or};
ghost use Rattle.base.specs.Lists.{store_all};
ghost use Rattle.nest.specs.declared.Nest.{Nest};
ghost use Rattle.plan.specs.Geometry.{value};
ghost use Rattle.bands.specs.lagged.Bands.{four, rows_of, numbered, BandGiven};

use crate::edge_rows::edge_row;
use kernels::{Rule, wave};

// The values of four rows: the first columns row by row, then side by side, then what is left of each row.
pub fn band(
    source: &[u32],
    memory: &mut [u32],
    shift: u64,
    boundary: u64,
    n: usize,
    first: &[usize; 8],
    back: &[usize; 8],
    weights: &[u64; 8],
    a: usize,
    b: usize,
    c: usize,
    d: usize,
    component: usize,
    from: usize,
    width: usize,
)
    requires { (x : Nest) × BandGiven (numbered x n shift boundary) first.now back.now weights.now source.now memory.old a b c d component from width }
    ensures { (x : Nest) → BandGiven (numbered x n shift boundary) first.now back.now weights.now source.now
        memory.old a b c d component from width
        → memory.new ≡ store_all (value (numbered x n shift boundary) source.now) memory.old (rows_of (four a b c d) width 4) }
{
    let full = component + (from - 3);
    edge_row(
        source, memory, shift, boundary, n, first, back, weights, full, a, component, from,
    );
    edge_row(
        source,
        memory,
        shift,
        boundary,
        n,
        first,
        back,
        weights,
        full,
        b,
        component,
        from - 1,
    );
    edge_row(
        source,
        memory,
        shift,
        boundary,
        n,
        first,
        back,
        weights,
        full,
        c,
        component,
        from - 2,
    );
    edge_row(
        source,
        memory,
        shift,
        boundary,
        n,
        first,
        back,
        weights,
        full,
        d,
        component,
        from - 3,
    );
    let rule = Rule { outside: 0, shift };
    let lag = b - a - 1;
    let rest = width - from;
    wave(source, memory, shift, n, back, weights, a + from, lag, rest);
    kernels::row(source, memory, rule, n, back, weights, b + (width - 1), 1);
    kernels::row(source, memory, rule, n, back, weights, c + (width - 2), 2);
    kernels::row(source, memory, rule, n, back, weights, d + (width - 3), 3);
}
