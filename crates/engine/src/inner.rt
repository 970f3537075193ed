// The calls, each by the first true line of document 01's table, but for the stores into the records: these are read as words, and a call
// gives why it is refused or what is to be stored. The contracts hold for every list of words that the `Flat` carries, since code has no other
// way to name the caller's records. The route is a word, 0 direct, any other indirect, so that nothing is asked of it.
ghost use Rattle.std.specs.Prelude.{◌≡◌, ℕ, ◌*◌, true, List, length, IfOk};
ghost use Rattle.base.specs.Numbers.{first_of};
ghost use Rattle.base.specs.Refusals.{number_of};
ghost use Rattle.machine.specs.Machine.{state_of, turn};
ghost use Rattle.nest.specs.Nest.{processors};
ghost use Rattle.records.specs.Records.{Flattens};
ghost use Rattle.tables.specs.Given.{plan_of_table};
ghost use Rattle.engine.specs.Given.{MayTurn, unfit_lines, handed_over, records_after, zeros_after};
ghost use Rattle.engine.specs.Calls.{answer, areas, fresh_call, turn_call, deliver_call, collect_call};

use base::refusal::Refusal;
use recipe::open;
use records::{Flat, Progress};
use stages::{
    calculate_stage, copy_cells, fit_records, fit_status, gather_stage, ready, send_stage,
    tiles_left,
};
use tables::{TABLE_WORDS, Table};

// Each area has its length; `words` is how many words the records have.
pub fn areas_fit(
    table: &Table,
    source: &[u32],
    memories: &[u32],
    buffer: &[u32],
    words: usize,
    status: &[u8],
) -> bool
    ensures { ((records : List ℕ) → words ≡ length records
        → result ≡ areas (plan_of_table table.now) source.now (state_of memories.now buffer.now records status.now))
        × (result ≡ true → words ≡ 3 * processors table.now.layout.nest) }
{
    let t = table.totals();
    let cells = table.layout.sizes.cells;
    let processors = table.layout.sizes.processors;
    if source.len() != cells {
        return false;
    }
    if memories.len() != processors * cells {
        return false;
    }
    if buffer.len() != t.words {
        return false;
    }
    if words != 3 * processors {
        return false;
    }
    status.len() == t.messages
}

// Lines 9 and 10.
pub fn check_areas(
    table: &Table,
    source: &[u32],
    memories: &[u32],
    buffer: &[u32],
    progress: Flat,
    status: &[u8],
) -> Result<(), Refusal>
    requires words_len { length progress.words ≡ 192 }
    ensures { ((records : List ℕ) → Flattens progress records
        → number_of result ≡ first_of (unfit_lines (plan_of_table table.now) source.now
        (state_of memories.now buffer.now records status.now)))
        × IfOk result (λ _. progress.count ≡ 3 * processors table.now.layout.nest) }
{
    let words = progress.words;
    let count = progress.count;
    if !areas_fit(table, source, memories, buffer, count, status) {
        return Err(Refusal::Area);
    }
    if !fit_records(table, &words[0..count]) {
        return Err(Refusal::Unfit);
    }
    if !fit_status(status) {
        return Err(Refusal::Unfit);
    }
    Ok(())
}

// The stage at which processor b stands: its record after it.
pub fn step(
    table: &Table,
    source: &[u32],
    memories: &mut [u32],
    buffer: &mut [u32],
    progress: &[u32],
    status: &mut [u8],
    b: usize,
) -> Result<Progress, Refusal>
    requires may_turn { MayTurn (plan_of_table table.now) source.now (state_of memories.old buffer.old progress.now status.old) b }
    ensures { answer (number_of result) (state_of memories.new buffer.new (records_after progress.now b result) status.new)
        ≡ turn (plan_of_table table.now) source.now
        (state_of memories.old buffer.old progress.now status.old) b }
{
    let finished = progress[3 * b];
    let stage = progress[3 * b + 1];
    let sent = progress[3 * b + 2] as usize;
    let i = finished as usize;
    let n = table.tile_count(b);
    if i >= n {
        return Err(Refusal::Finished);
    }
    let t = table.tile_at(b, i);
    if stage == 0 {
        if !ready(table, status, t) {
            return Err(Refusal::Waiting);
        }
        return Ok(gather_stage(table, memories, buffer, status, b, t, finished));
    }
    if stage == 1 {
        return Ok(calculate_stage(table, source, memories, b, t, finished));
    }
    Ok(send_stage(table, memories, buffer, status, b, t, finished, sent))
}

// One turn of a processor.
pub fn turn(
    encoded: &[u8],
    route: u32,
    source: &[u32],
    memories: &mut [u32],
    buffer: &mut [u32],
    progress: Flat,
    status: &mut [u8],
    processor: u32,
) -> Result<Progress, Refusal>
    requires { length progress.words ≡ 192 }
    ensures { (records : List ℕ) → Flattens progress records
        → answer (number_of result) (state_of memories.new buffer.new (records_after records processor result) status.new)
        ≡ turn_call encoded.now route source.now
        (state_of memories.old buffer.old records status.old) processor }
{
    let mut lens = [0; TABLE_WORDS];
    let table = open(encoded, route, &mut lens)?;
    check_areas(&table, source, memories, buffer, progress, status)?;
    let b = processor as usize;
    if b >= table.layout.sizes.processors {
        return Err(Refusal::NoSuch);
    }
    let words = progress.words;
    let count = progress.count;
    step(
        &table,
        source,
        memories,
        buffer,
        &words[0..count],
        status,
        b,
    )
}

// The delivery of a message, past the lines before it: line 11, line 14, and the mark.
pub fn hand_over(status: &mut [u8], message: u32) -> Result<(), Refusal>
    ensures { answer (number_of result) status.new ≡ handed_over status.old message }
{
    let m = message as usize;
    if m >= status.len() {
        return Err(Refusal::NoSuch);
    }
    if status[m] != 1 {
        return Err(Refusal::NoMail);
    }
    status[m] = 2;
    Ok(())
}

// The delivery of a message.
pub fn deliver(
    encoded: &[u8],
    route: u32,
    source: &[u32],
    memories: &[u32],
    buffer: &[u32],
    progress: Flat,
    status: &mut [u8],
    message: u32,
) -> Result<(), Refusal>
    requires { length progress.words ≡ 192 }
    ensures { (records : List ℕ) → Flattens progress records
        → answer (number_of result) (state_of memories.now buffer.now records status.new)
        ≡ deliver_call encoded.now route source.now
        (state_of memories.now buffer.now records status.old) message }
{
    let mut lens = [0; TABLE_WORDS];
    let table = open(encoded, route, &mut lens)?;
    check_areas(&table, source, memories, buffer, progress, status)?;
    hand_over(status, message)
}

// The grid, once all processors have finished.
pub fn collect(
    encoded: &[u8],
    route: u32,
    source: &[u32],
    memories: &[u32],
    buffer: &[u32],
    progress: Flat,
    status: &[u8],
    grid: &mut [u32],
) -> Result<(), Refusal>
    requires { length progress.words ≡ 192 }
    ensures { (records : List ℕ) → Flattens progress records
        → answer (number_of result) grid.new
        ≡ collect_call encoded.now route source.now
        (state_of memories.now buffer.now records status.now) grid.old }
{
    let mut lens = [0; TABLE_WORDS];
    let table = open(encoded, route, &mut lens)?;
    if grid.len() != table.layout.sizes.cells {
        return Err(Refusal::Area);
    }
    check_areas(&table, source, memories, buffer, progress, status)?;
    let words = progress.words;
    let count = progress.count;
    if tiles_left(&table, &words[0..count]) {
        return Err(Refusal::Early);
    }
    copy_cells(&table.layout, memories, grid);
    Ok(())
}

// A fresh start of all but the records, which have so many words.
pub fn fresh(
    encoded: &[u8],
    route: u32,
    source: &[u32],
    memories: &mut [u32],
    buffer: &mut [u32],
    words: usize,
    status: &mut [u8],
) -> Result<(), Refusal>
    ensures { (records : List ℕ) → words ≡ length records
        → answer (number_of result) (state_of memories.new buffer.new (zeros_after records (number_of result)) status.new)
        ≡ fresh_call encoded.now route source.now
        (state_of memories.old buffer.old records status.old) }
{
    let mut lens = [0; TABLE_WORDS];
    let table = open(encoded, route, &mut lens)?;
    if !areas_fit(&table, source, memories, buffer, words, status) {
        return Err(Refusal::Area);
    }
    memories.fill(0);
    buffer.fill(0);
    status.fill(0);
    Ok(())
}
