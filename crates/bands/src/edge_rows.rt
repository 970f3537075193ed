// Rows whose first cells read the boundary's word in place of a cell's: those cells one by one, the others by `kernels`.
ghost use Rattle.std.specs.Prelude.{◌≡◌, ◌+◌, ◌*◌, ◌-◌, ◌/◌, ◌%◌, ◌^◌, ◌≤◌, ◌<◌, length, get_or, leb};
ghost use Rattle.base.specs.Tests.{pick, tabulate};
ghost use Rattle.base.specs.Lists.{store_all};
ghost use Rattle.kernels.specs.Taps.{mixed, in_line, Mixes, All, AllOrNone, Light, Rested};

use kernels::{Rule, closed, row, word_of};

// The word that a tap reads at a cell, or the boundary's.
fn word_at(
    memory: &[u32],
    cell: usize,
    component: usize,
    first: usize,
    back: usize,
    boundary: u64,
) -> u64
    requires { (cell < length memory.now) × ((boundary < 4294967296)
        × ((length memory.now ≤ 16384) × (first ≤ component → back ≤ cell))) }
    ensures { (result ≡ pick (leb first component) (get_or memory.now (cell - back) 0) boundary) × (result < 4294967296) }
{
    if component < first {
        return boundary;
    }
    u64::from(memory[cell - back])
}

// The word of a cell at which some taps may read the boundary's.
fn mixed_at(
    source: &[u32],
    memory: &[u32],
    shift: u64,
    boundary: u64,
    n: usize,
    firsts: &[usize; 8],
    backs: &[usize; 8],
    weights: &[u64; 8],
    cell: usize,
    component: usize,
) -> u32
    requires { Mixes n firsts.now backs.now weights.now boundary shift cell component 1 (length source.now)
        (length memory.now) }
    ensures { result ≡ mixed n firsts.now backs.now weights.now boundary shift
        source.now component memory.now cell }
{
    let mut total = word_of(source, cell);
    for k in 0..n {
        let w = word_at(memory, cell, component, firsts[k], backs[k], boundary);
        total += weights[k] * w;
    }
    closed(total, shift)
}

// The first cells of a row.
fn edge(
    source: &[u32],
    memory: &mut [u32],
    shift: u64,
    boundary: u64,
    n: usize,
    firsts: &[usize; 8],
    backs: &[usize; 8],
    weights: &[u64; 8],
    cell: usize,
    component: usize,
    width: usize,
)
    requires { Mixes n firsts.now backs.now weights.now boundary shift cell component width (length source.now)
        (length memory.old) }
    ensures { memory.new ≡ store_all (in_line n firsts.now backs.now
        weights.now boundary shift source.now cell component) memory.old
        (tabulate (λ y. cell + y) width) }
{
    for y in 0..width {
        let v = mixed_at(
            source,
            memory,
            shift,
            boundary,
            n,
            firsts,
            backs,
            weights,
            cell + y,
            component + y,
        );
        memory[cell + y] = v;
    }
}

// How many cells of a row stand before component `from`.
fn before(from: usize, component: usize, width: usize) -> usize
    ensures { (result ≤ width) × (result < width → from ≤ component + result) }
{
    from.saturating_sub(component).min(width)
}

// A row whose taps all read from component `from` on.
pub fn edge_row(
    source: &[u32],
    memory: &mut [u32],
    shift: u64,
    boundary: u64,
    n: usize,
    firsts: &[usize; 8],
    backs: &[usize; 8],
    weights: &[u64; 8],
    from: usize,
    cell: usize,
    component: usize,
    width: usize,
)
    requires { Mixes n firsts.now backs.now weights.now boundary shift cell component width (length source.now)
        (length memory.old) × All n firsts.now from }
    ensures { memory.new ≡ store_all (in_line n firsts.now backs.now
        weights.now boundary shift source.now cell component) memory.old
        (tabulate (λ y. cell + y) width) }
{
    let few = before(from, component, width);
    edge(
        source, memory, shift, boundary, n, firsts, backs, weights, cell, component, few,
    );
    if few == width {
        return;
    }
    let rule = Rule { outside: 0, shift };
    row(
        source,
        memory,
        rule,
        n,
        backs,
        weights,
        cell + few,
        width - few,
    );
}

// What is left of the taps in a row where some read nowhere, which `first` 1024 says: those weigh nothing, and what they add is besides.
#[derive(Clone, Copy)]
struct Rest {
    outside: u64,
    backs: [usize; 8],
    weights: [u64; 8],
}

fn rest_of(
    boundary: u64,
    n: usize,
    firsts: &[usize; 8],
    backs: &[usize; 8],
    weights: &[u64; 8],
) -> Rest
    requires { (n ≤ 8) × ((boundary < 4294967296) × Light n weights.now) }
    ensures { Rested n firsts.now backs.now weights.now boundary result.backs result.weights
        result.outside }
{
    let mut outside = 0;
    let mut left_backs = [0; 8];
    let mut left_weights = [0; 8];
    for k in 0..n {
        if firsts[k] == 1024 {
            outside += weights[k] * boundary;
            continue;
        }
        left_backs[k] = backs[k];
        left_weights[k] = weights[k];
    }
    Rest {
        outside,
        backs: left_backs,
        weights: left_weights,
    }
}

// A row whose taps all read from component `from` on, but for those that read nowhere.
pub fn short_row(
    source: &[u32],
    memory: &mut [u32],
    shift: u64,
    boundary: u64,
    n: usize,
    firsts: &[usize; 8],
    backs: &[usize; 8],
    weights: &[u64; 8],
    from: usize,
    cell: usize,
    component: usize,
    width: usize,
)
    requires { Mixes n firsts.now backs.now weights.now boundary shift cell component width (length source.now)
        (length memory.old) × AllOrNone n firsts.now from }
    ensures { memory.new ≡ store_all (in_line n firsts.now backs.now
        weights.now boundary shift source.now cell component) memory.old
        (tabulate (λ y. cell + y) width) }
{
    let few = before(from, component, width);
    edge(
        source, memory, shift, boundary, n, firsts, backs, weights, cell, component, few,
    );
    if few == width {
        return;
    }
    let rest = rest_of(boundary, n, firsts, backs, weights);
    let rule = Rule {
        outside: rest.outside,
        shift,
    };
    row(
        source,
        memory,
        rule,
        n,
        &rest.backs,
        &rest.weights,
        cell + few,
        width - few,
    );
}
