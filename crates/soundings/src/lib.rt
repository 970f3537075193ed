// A source filled from soundings (W-210), in one pass over the file and one over the cells. Of each cell survey number, day and
// depth of the record that counts so far are kept, side by side in words of the call's own: nothing is written where a record is refused.
#![tactic(auto)]

ghost use Rattle.std.specs.Prelude.{◌≡◌, false, [], ◌∷◌, ◌+◌, ◌*◌, ◌≤◌, ◌<◌, length};
ghost use Rattle.base.specs.Tests.{tabulate};
ghost use Rattle.base.specs.Numbers.{line, first_of};
ghost use Rattle.base.specs.Refusals.{number_of};
ghost use Rattle.machine.specs.Machine.{answered};
ghost use Rattle.nest.specs.Reader.{records};
ghost use Rattle.soundings.specs.Soundings.{cell_of, sounded_source, ragged_file, off_box, filled, fill_call};
ghost use Rattle.soundings.specs.Sifting.{depth_in, Zeros, Blank, Sifted, Noted};

use base::refusal::{Refusal, number_of};
use base::word_at;

pub mod surveys; // surveys.rt: which of a cell's records counts, and whether a record's cell is in the box

fn cell_of(file: &[u8], r: usize) -> usize
    requires { r < records file.now }
    ensures { result ≡ cell_of file.now r }
{
    word_at(file, 16 * r) as usize
}

// An empty file is allowed.
fn ragged(file: &[u8]) -> bool
    ensures { result ≡ ragged_file file.now }
{
    file.len() % 16 != 0
}

// Words of the cells before the first record: key 0, so that every record counts, and the value as depth.
fn set_out(value: u32, size: usize, best: &mut [u32; 49152])
    requires { (size ≤ 16384) × Zeros best.old }
    ensures { Blank value size best.new }
{
    for c in 0..size {
        best[3 * c + 2] = value;
    }
}

// Record r of a cell: it counts from here on, unless one before it has a greater key.
fn note(file: &[u8], r: usize, cell: usize, best: &mut [u32; 49152])
    requires { (r < records file.now) × ((cell < 16384) × (length best.old ≡ 49152)) }
    ensures { Noted file.now r cell best.old best.new }
{
    let at = 3 * cell;
    let day = word_at(file, 16 * r + 4);
    let survey = word_at(file, 16 * r + 8);
    if surveys::counts(day, survey, best[at + 1], best[at]) {
        best[at] = survey;
        best[at + 1] = day;
        best[at + 2] = word_at(file, 16 * r + 12);
    }
}

// Goes through the file; true, and the words of no use, where a record names a cell outside.
fn sift(file: &[u8], size: usize, best: &mut [u32; 49152]) -> bool
    requires { (size ≤ 16384) × Sifted file.now (depth_in best.old) size 0 best.old }
    ensures value { result ≡ off_box size file.now }
    ensures sifted { result ≡ false → Sifted file.now (depth_in best.old) size (records file.now) best.new }
{
    let n = file.len() / 16;
    for r in 0..n {
        let cell = cell_of(file, r);
        if surveys::beyond_box(cell, size) {
            return true;
        }
        note(file, r, cell, best);
    }
    false
}

fn copy(best: &[u32; 49152], source: &mut [u32])
    requires { (length best.now ≡ 49152) × (length source.old ≤ 16384) }
    ensures { source.new ≡ tabulate (depth_in best.now) (length source.old) }
{
    for (c, word) in source.iter_mut().enumerate() {
        *word = best[3 * c + 2];
    }
}

// A source of the right length: its words, or line 22.
fn fill_source(file: &[u8], value: u32, source: &mut [u32]) -> Result<(), Refusal>
    requires { length source.old ≤ 16384 }
    ensures { filled (number_of result) source.new
        ≡ answered (first_of (line 22 (off_box (length source.old) file.now) ∷ []))
        (sounded_source file.now value (length source.old)) source.old }
{
    let size = source.len();
    let mut best = [0u32; 49152];
    set_out(value, size, &mut best);
    if sift(file, size, &mut best) {
        return Err(Refusal::OffTheBox);
    }
    copy(&best, source);
    Ok(())
}

// The source filled, or the first line that is true.
fn fill_read(encoded: &[u8], file: &[u8], value: u32, source: &mut [u32]) -> Result<(), Refusal>
    ensures { filled (number_of result) source.new ≡ fill_call encoded.now file.now value source.old }
{
    if ragged(file) {
        return Err(Refusal::Ragged);
    }
    let nest = reader::read(encoded)?;
    if source.len() != layout::product(nest.lengths, nest.dimensions) {
        return Err(Refusal::Area);
    }
    fill_source(file, value, source)
}

// The number, and for 0 the source filled.
pub fn fill(encoded: &[u8], file: &[u8], value: u32, source: &mut [u32]) -> u32
    ensures { filled result source.new ≡ fill_call encoded.now file.now value source.old }
{
    number_of(&fill_read(encoded, file, value, source))
}
