// Rows by runs: where each distance reaches in a row; the pieces of a row, the cells reached counted piece by piece.
#![tactic(auto)]

ghost use Rattle.std.specs.Prelude.{◌≡◌, ◌⊎◌, ℕ, ◌+◌, ◌≤◌, ◌<◌, length};
ghost use Rattle.runs.specs.Runs.{hit_row, AheadIs, PieceIs};

pub mod row_words; // row_words.rt: the words of a row's cells that lie in a run, packed and unpacked piece by piece
pub mod listed; // listed.rt: cells side by side as a list of their numbers

// What lies ahead in a row: where the runs that have begun end, and where the next one begins.
#[derive(Clone, Copy)]
struct Ahead {
    reach: usize,
    next: usize,
}

// A piece of a row whose cells are alike: its end, and how many of them are hit, all or none.
#[derive(Clone, Copy)]
pub struct Piece {
    pub end: usize,
    pub hits: usize,
}

// The later of two ends, the second one that of a run which counts only if it has begun.
fn further(reach: usize, at: usize, start: usize, end: usize) -> usize
    ensures { (reach ≤ result) × ((start ≤ at → end ≤ result) × ((result ≡ reach) ⊎ ((result ≡ end) × (start ≤ at)))) }
{
    if start <= at { reach.max(end) } else { reach }
}

// The earlier of two starts, the second one that of a run which counts only if it is still to begin.
fn sooner(next: usize, at: usize, start: usize) -> usize
    ensures { (result ≤ next) × ((at < start → result ≤ start) × ((result ≡ next) ⊎ ((result ≡ start) × (at < start)))) }
{
    if at < start { next.min(start) } else { next }
}

// Of the first n runs: how far those go that have begun, and where the next begins, `to` at the latest.
fn ahead_of(starts: &[usize; 8], ends: &[usize; 8], n: usize, at: usize, to: usize) -> Ahead
    requires { (n ≤ 8) × (at < to) }
    ensures { AheadIs starts.now ends.now n at to result.reach result.next }
{
    let mut reach = at;
    let mut next = to;
    for e in 0..n {
        reach = further(reach, at, starts[e], ends[e]);
        next = sooner(next, at, starts[e]);
    }
    Ahead { reach, next }
}

// The piece of a row from a last component on, cut at `to`.
pub fn piece_of(starts: &[usize; 8], ends: &[usize; 8], n: usize, at: usize, to: usize) -> Piece
    requires { (n ≤ 8) × (at < to) }
    ensures { PieceIs starts.now ends.now n at to result.end result.hits }
{
    let ahead = ahead_of(starts, ends, n, at, to);
    if ahead.reach == at {
        return Piece {
            end: ahead.next,
            hits: 0,
        };
    }
    let end = ahead.reach.min(to);
    Piece {
        end,
        hits: end - at,
    }
}

// How many cells of a row lie in one.
pub fn count_row(
    starts: &[usize; 8],
    ends: &[usize; 8],
    n: usize,
    component: usize,
    width: usize,
) -> usize
    requires { (n ≤ 8) × (component + width ≤ 1024) }
    ensures { ((c : ℕ) → result ≡ length (hit_row starts.now ends.now n c component width)) × (result ≤ width) }
{
    let to = component + width;
    let mut at = component;
    let mut count = 0;
    // from piece to piece, each as long as it is
    while at < to {
        let piece = piece_of(starts, ends, n, at, to);
        count += piece.hits;
        at = piece.end;
    }
    count
}
