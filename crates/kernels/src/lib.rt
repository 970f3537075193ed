// Loops that make words of a source and a memory: along a row of cells, and along four rows side by side, each one column behind
// the row before it. A word sums the source's and so many taps, words of the memory a fixed way back, weighed. How many is a
// constant, so that the compiler sums them without a loop and the words of a column wait for each other no longer than they must.
#![tactic(auto)]

ghost use Rattle.std.specs.Prelude.{◌≡◌, [], ◌∷◌, ◌+◌, ◌*◌, ◌-◌, ◌/◌, ◌%◌, ◌^◌, ◌≤◌, ◌<◌, length, get_or, set};
ghost use Rattle.base.specs.Tests.{tabulate};
ghost use Rattle.base.specs.Lists.{store_all};
ghost use Rattle.kernels.specs.Taps.{made, made_by, wave_of, Fits, FitsBy, Word, column_of, Stands};

// How far back, and its weight.
#[derive(Clone, Copy)]
struct Tap {
    back: usize,
    weight: u64,
}

// What is added to every word besides, and by which power of 2 it is divided.
#[derive(Clone, Copy)]
pub struct Rule {
    pub outside: u64,
    pub shift: u64,
}

// A word of a list, wide.
pub fn word_of(words: &[u32], i: usize) -> u64
    requires { (i < length words.now) × (length words.now ≤ 16384) }
    ensures { (result ≡ get_or words.now i 0) × (result < 4294967296) }
{
    words[i] as u64
}

// A sum with one tap more.
fn with_tap(total: u64, tap: Tap, memory: &[u32], c: usize) -> u64
    requires { (total ≤ 4611686018427387904) × ((tap.weight < 65536)
        × ((tap.back ≤ c) × ((c < length memory.now) × (length memory.now ≤ 16384)))) }
    ensures { (result ≡ total + tap.weight * get_or memory.now (c - tap.back) 0) × (result ≤ total + 281470681677825) }
{
    let v = word_of(memory, c - tap.back);
    total + tap.weight * v
}

// The word that a sum closes to.
pub fn closed(total: u64, shift: u64) -> u32
    requires { shift < 64 }
    ensures { result ≡ total / 2 ^ shift % 4294967296 }
{
    ((total >> shift) % 4294967296) as u32
}

// The word of cell c of one tap, whose word v is at hand: it is given back too, for the cell that reads it next.
fn store_after(source: &[u32], memory: &mut [u32], rule: Rule, p: Tap, v: u64, c: usize) -> u64
    requires { FitsBy rule (p ∷ []) c 1 source.now memory.old × Word memory.old (c - p.back) v }
    ensures { (memory.new ≡ set memory.old c
        (made_by rule (p ∷ []) source.now memory.old c)) × Word memory.new c result }
{
    let t = rule.outside + word_of(source, c);
    let word = closed(t + p.weight * v, rule.shift);
    memory[c] = word;
    word as u64
}

// The word of cell c, of N taps. They come by value, here and in the loops below: behind a reference they are read anew for each
// cell, since the compiler can't tell that a store to the memory leaves them as they are.
fn store<const N: usize>(
    source: &[u32],
    memory: &mut [u32],
    rule: Rule,
    backs: [usize; 8],
    weights: [u64; 8],
    c: usize,
)
    requires { Fits N backs weights rule.outside rule.shift c 1 (length source.now) (length memory.old) }
    ensures { memory.new ≡ set memory.old c
        (made N backs weights rule.outside rule.shift source.now memory.old c) }
{
    let mut total = rule.outside + word_of(source, c);
    for k in 0..N {
        let tap = tap_at(&backs, &weights, k);
        total = with_tap(total, tap, memory, c);
    }
    memory[c] = closed(total, rule.shift);
}

// The words of a row: `width` cells from one on.
fn store_row<const N: usize>(
    source: &[u32],
    memory: &mut [u32],
    rule: Rule,
    backs: [usize; 8],
    weights: [u64; 8],
    cell: usize,
    width: usize,
)
    requires { Fits N backs weights rule.outside rule.shift cell width (length source.now) (length memory.old) }
    ensures { memory.new ≡ store_all (made N backs weights rule.outside rule.shift
        source.now) memory.old (tabulate (λ y. cell + y) width) }
{
    for y in 0..width {
        store::<N>(source, memory, rule, backs, weights, cell + y);
    }
}

// The same of one tap, where mostly nothing is added besides: saying so lets the compiler leave the addition out.
fn row_one(
    source: &[u32],
    memory: &mut [u32],
    rule: Rule,
    backs: [usize; 8],
    weights: [u64; 8],
    cell: usize,
    width: usize,
)
    requires { Fits 1 backs weights rule.outside rule.shift cell width (length source.now) (length memory.old) }
    ensures { memory.new ≡ store_all (made 1 backs weights rule.outside rule.shift
        source.now) memory.old (tabulate (λ y. cell + y) width) }
{
    if rule.outside == 0 {
        let bare = Rule {
            outside: 0,
            shift: rule.shift,
        };
        store_row::<1>(source, memory, bare, backs, weights, cell, width);
        return;
    }
    store_row::<1>(source, memory, rule, backs, weights, cell, width);
}

// Four rows side by side: `width` cells of each, the first row's from a on, each other row's t further on than those of the row before.
fn store_wave<const N: usize>(
    source: &[u32],
    memory: &mut [u32],
    rule: Rule,
    backs: [usize; 8],
    weights: [u64; 8],
    a: usize,
    t: usize,
    width: usize,
)
    requires { Fits N backs weights rule.outside rule.shift a (3 * t + width) (length source.now)
        (length memory.old) }
    ensures { memory.new ≡ store_all (made N backs weights rule.outside rule.shift
        source.now) memory.old (wave_of a t width) }
{
    for y in 0..width {
        let b = a + y + t;
        let c = b + t;
        let d = c + t;
        store::<N>(source, memory, rule, backs, weights, a + y);
        store::<N>(source, memory, rule, backs, weights, b);
        store::<N>(source, memory, rule, backs, weights, c);
        store::<N>(source, memory, rule, backs, weights, d);
    }
}

// The words of a column: of four cells, each t further on than the one before.
#[derive(Clone, Copy)]
struct Column {
    first: u64,
    second: u64,
    third: u64,
    fourth: u64,
}

// Those that are stored, from cell c on.
fn column_at(memory: &[u32], c: usize, t: usize) -> Column
    requires { (c + 3 * t < length memory.now) × (length memory.now ≤ 16384) }
    ensures { Stands memory.now c t result }
{
    let b = c + t;
    let d = b + t;
    Column {
        first: word_of(memory, c),
        second: word_of(memory, b),
        third: word_of(memory, d),
        fourth: word_of(memory, d + t),
    }
}

// Those of the column that starts at cell c, made of the column's before.
fn store_column(
    source: &[u32],
    memory: &mut [u32],
    rule: Rule,
    p: Tap,
    last: Column,
    c: usize,
    t: usize,
) -> Column
    requires { FitsBy rule (p ∷ []) c (3 * t + 1) source.now memory.old × ((p.back ≡ 1) × ((2 ≤ t) × Stands memory.old (c - 1) t last)) }
    ensures { (memory.new ≡ store_all (made_by rule (p ∷ []) source.now) memory.old (column_of c t))
        × Stands memory.new c t result }
{
    let b = c + t;
    let d = b + t;
    let first = store_after(source, memory, rule, p, last.first, c);
    let second = store_after(source, memory, rule, p, last.second, b);
    let third = store_after(source, memory, rule, p, last.third, d);
    let fourth = store_after(source, memory, rule, p, last.fourth, d + t);
    Column {
        first,
        second,
        third,
        fourth,
    }
}

// Four rows where the tap reads the cell before: its word is at hand, so that no cell waits for a word to be stored and read again.
fn wave_after(
    source: &[u32],
    memory: &mut [u32],
    rule: Rule,
    p: Tap,
    a: usize,
    t: usize,
    width: usize,
)
    requires { FitsBy rule (p ∷ []) a (3 * t + width) source.now memory.old × ((p.back ≡ 1) × (2 ≤ t)) }
    ensures { memory.new ≡ store_all (made_by rule (p ∷ []) source.now) memory.old (wave_of a t width) }
{
    let mut last = column_at(memory, a - 1, t);
    for y in 0..width {
        last = store_column(source, memory, rule, p, last, a + y, t);
    }
}

// Four rows of one tap.
fn wave_one(
    source: &[u32],
    memory: &mut [u32],
    rule: Rule,
    backs: [usize; 8],
    weights: [u64; 8],
    a: usize,
    t: usize,
    width: usize,
)
    requires { Fits 1 backs weights rule.outside rule.shift a (3 * t + width) (length source.now)
        (length memory.old) }
    ensures { memory.new ≡ store_all (made 1 backs weights rule.outside rule.shift
        source.now) memory.old (wave_of a t width) }
{
    let p = tap_at(&backs, &weights, 0);
    if p.back == 1 && 1 < t {
        wave_after(source, memory, rule, p, a, t, width);
        return;
    }
    store_wave::<1>(source, memory, rule, backs, weights, a, t, width);
}

// Tap k. A weight is below 65536; saying so here lets the compiler multiply narrow words.
fn tap_at(backs: &[usize; 8], weights: &[u64; 8], k: usize) -> Tap
    requires { k < 8 }
    ensures { (result.back ≡ get_or backs.now k 0)
        × (get_or weights.now k 0 < 65536 → result.weight ≡ get_or weights.now k 0) }
{
    Tap {
        back: backs[k],
        weight: weights[k] % 65536,
    }
}

// A row, by the loop of so many taps.
pub fn row(
    source: &[u32],
    memory: &mut [u32],
    rule: Rule,
    n: usize,
    backs: &[usize; 8],
    weights: &[u64; 8],
    cell: usize,
    width: usize,
)
    requires { Fits n backs.now weights.now rule.outside rule.shift cell width (length source.now) (length memory.old) }
    ensures { memory.new ≡ store_all (made n backs.now weights.now rule.outside rule.shift
        source.now) memory.old (tabulate (λ y. cell + y) width) }
{
    match n {
        1 => row_one(source, memory, rule, *backs, *weights, cell, width),
        2 => store_row::<2>(source, memory, rule, *backs, *weights, cell, width),
        3 => store_row::<3>(source, memory, rule, *backs, *weights, cell, width),
        4 => store_row::<4>(source, memory, rule, *backs, *weights, cell, width),
        5 => store_row::<5>(source, memory, rule, *backs, *weights, cell, width),
        6 => store_row::<6>(source, memory, rule, *backs, *weights, cell, width),
        7 => store_row::<7>(source, memory, rule, *backs, *weights, cell, width),
        8 => store_row::<8>(source, memory, rule, *backs, *weights, cell, width),
        _ => store_row::<0>(source, memory, rule, *backs, *weights, cell, width),
    }
}

// Four rows side by side, likewise.
pub fn wave(
    source: &[u32],
    memory: &mut [u32],
    shift: u64,
    n: usize,
    backs: &[usize; 8],
    weights: &[u64; 8],
    a: usize,
    t: usize,
    width: usize,
)
    requires { Fits n backs.now weights.now 0 shift a (3 * t + width) (length source.now)
        (length memory.old) }
    ensures { memory.new ≡ store_all (made n backs.now weights.now 0 shift
        source.now) memory.old (wave_of a t width) }
{
    let rule = Rule { outside: 0, shift };
    match n {
        1 => wave_one(source, memory, rule, *backs, *weights, a, t, width),
        2 => store_wave::<2>(source, memory, rule, *backs, *weights, a, t, width),
        3 => store_wave::<3>(source, memory, rule, *backs, *weights, a, t, width),
        4 => store_wave::<4>(source, memory, rule, *backs, *weights, a, t, width),
        5 => store_wave::<5>(source, memory, rule, *backs, *weights, a, t, width),
        6 => store_wave::<6>(source, memory, rule, *backs, *weights, a, t, width),
        7 => store_wave::<7>(source, memory, rule, *backs, *weights, a, t, width),
        8 => store_wave::<8>(source, memory, rule, *backs, *weights, a, t, width),
        _ => store_wave::<0>(source, memory, rule, *backs, *weights, a, t, width),
    }
}
