// Cells marked by bytes: how many marked cells come before a cell, its rank, which is where its word stands among theirs. The marks before each block
// of 64 cells are counted once.
#![tactic(auto)]

ghost use Rattle.std.specs.Prelude.{◌≡◌, ◌+◌, ◌-◌, ◌≤◌, length};
ghost use Rattle.rank_index.specs.Ranks.{rank_at, Counted};

// Cells of a block.
pub const BLOCK: usize = 64;

// Of at most 16,384 cells a count before each block, and one behind the last.
pub const BLOCKS: usize = 257;

// How many of the bytes are marks.
fn marks_in(marks: &[u8]) -> u32
    requires { length marks.now ≤ 16384 }
    ensures { result ≡ rank_at marks.now (length marks.now) }
{
    let mut n = 0;
    for &mark in marks {
        if mark == 1 {
            n += 1;
        }
    }
    n
}

// How many cells are marked before each block of 64.
pub fn fill_counts(marks: &[u8], counts: &mut [u32; BLOCKS])
    requires { (length marks.now ≤ 16384) × (length counts.old ≡ 257) }
    ensures { Counted marks.now counts.new }
{
    let blocks = marks.len() / BLOCK;
    let mut n = 0;
    // by number: over chunks_exact the iterator's state is left to prove
    for q in 0..blocks {
        counts[q] = n;
        let from = q * BLOCK;
        let end = from + BLOCK;
        n += marks_in(&marks[from..end]);
    }
    counts[blocks] = n;
}

// How many cells are marked before this one; before the length, how many there are.
pub fn rank(marks: &[u8], counts: &[u32; BLOCKS], c: usize) -> usize
    requires { Counted marks.now counts.now × ((c ≤ length marks.now) × (length marks.now ≤ 16384)) }
    ensures { result ≡ rank_at marks.now c }
{
    let q = c / BLOCK;
    let from = q * BLOCK;
    let n = counts[q] + marks_in(&marks[from..c]);
    n as usize
}

// How many marked cells come before the one `ahead` of `cell`, from the one that lies `back` cells before it on; `cell` has rank `first`, and those between
// are marked too.
pub fn behind(
    marks: &[u8],
    counts: &[u32; BLOCKS],
    first: usize,
    cell: usize,
    ahead: usize,
    back: usize,
) -> usize
    requires counted { (Counted marks.now counts.now × (length marks.now ≤ 16384)) × ((cell + ahead ≤ length marks.now) × (back ≤ cell + ahead)) }
    requires ahead_value { first + ahead ≡ rank_at marks.now (cell + ahead) }
    ensures { result + rank_at marks.now (cell + ahead - back) ≡ rank_at marks.now (cell + ahead) }
{
    let read = rank(marks, counts, cell + ahead - back);
    first + ahead - read
}
