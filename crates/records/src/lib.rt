// A processor's record as a struct: the words of a slice of records, for reading, and the stores into it.
#![tactic(auto)]

ghost use Rattle.std.specs.Prelude.{◌≡◌, ◌<◌, length};
ghost use Rattle.base.specs.Refusals.{number_of};
ghost use Rattle.records.specs.Records.{flat_words, Flattens, blank, with_record, put_at, zeros, clear_all, record_in, put_all};

use base::refusal::Refusal;

// Three words for each of at most 64 processors.
pub const RECORD_WORDS: usize = 192;

// A processor's record (document 01: board record): tiles finished, stage (0 gather, 1 calculate, 2 send), messages sent of the current tile.
#[repr(C)]
#[derive(Clone, Copy)]
pub struct Progress {
    pub finished: u32,
    pub stage: u32,
    pub sent: u32,
}

// The words of records, three each, as a call reads them, and how many there are. A recipe has at most 64 processors, so of more than 192
// words only their number is of use.
#[derive(Clone, Copy)]
pub struct Flat {
    pub words: [u32; RECORD_WORDS],
    pub count: usize,
}

fn empty(count: usize) -> Flat
    ensures { result ≡ blank count }
{
    Flat {
        words: [0; RECORD_WORDS],
        count,
    }
}

// The words of record i written.
#[tactic(auto, unfolding(base::specs::Tests::pick, crate::specs::Records::words_at))]
fn with_record(mut flat: Flat, i: usize, p: Progress) -> Flat
    ensures { result ≡ with_record flat i p }
{
    if i < 64 {
        flat.words[3 * i] = p.finished;
        flat.words[3 * i + 1] = p.stage;
        flat.words[3 * i + 2] = p.sent;
    }
    flat
}

// All records taken apart into their words.
pub fn flatten(progress: &[Progress]) -> Flat
    ensures { Flattens result (flat_words progress.now) }
{
    let mut flat = empty(3 * progress.len());
    for (i, &record) in progress.iter().enumerate() {
        flat = with_record(flat, i, record);
    }
    flat
}

// The same of records that their caller keeps as words.
pub fn flat_of(words: &[u32]) -> Flat
    ensures { Flattens result words.now }
{
    let count = words.len();
    let mut kept = [0; RECORD_WORDS];
    if count <= RECORD_WORDS {
        kept[..count].copy_from_slice(words);
    }
    Flat { words: kept, count }
}

// The record that a turn answered, stored as record i, and the turn's number; at a refusal nothing is written.
pub fn put(progress: &mut [Progress], i: u32, after: Result<Progress, Refusal>) -> u32
    requires { number_of after ≡ 0 → i < length progress.old }
    ensures stored { progress.new ≡ put_at after i progress.old }
    ensures number { result ≡ number_of after }
{
    match after {
        Ok(record) => {
            progress[i as usize] = record;
            0
        }
        Err(refusal) => refusal.number(),
    }
}

fn zero() -> Progress
    ensures { result ≡ zeros }
{
    Progress {
        finished: 0,
        stage: 0,
        sent: 0,
    }
}

// All records set to zero where the call's number is 0; at a refusal nothing is written.
#[tactic(auto, unfolding(base::specs::Tests::pick, crate::specs::Records::clear_all))]
pub fn clear(progress: &mut [Progress], number: u32)
    ensures { progress.new ≡ clear_all number progress.old }
{
    if number != 0 {
        return;
    }
    progress.fill(zero());
}

// Record i of these words.
#[tactic(auto, unfolding(base::specs::Tests::pick, crate::specs::Records::record_in))]
fn record_in(flat: &Flat, i: usize) -> Progress
    ensures { result ≡ record_in flat.now i }
{
    if i >= 64 {
        return zero();
    }
    Progress {
        finished: flat.words[3 * i],
        stage: flat.words[3 * i + 1],
        sent: flat.words[3 * i + 2],
    }
}

// All records stored from their words where the call's number is 0; at a refusal nothing is written.
pub fn put_all(progress: &mut [Progress], number: u32, flat: Flat)
    ensures { progress.new ≡ put_all number flat progress.old }
{
    if number == 0 {
        for (i, record) in progress.iter_mut().enumerate() {
            *record = record_in(&flat, i);
        }
    }
}
