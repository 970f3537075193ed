// The calls with hours, each by the first true line, but for the stores into the records, as in engine's `inner` and sharing's: the records
// are read as words, and a turn gives why it is refused or the record to be stored.
ghost use Rattle.std.specs.Prelude.{◌≡◌, ℕ, ◌*◌, ◌≤◌, List, length, IfOk};
ghost use Rattle.base.specs.Numbers.{first_of};
ghost use Rattle.base.specs.Refusals.{number_of};
ghost use Rattle.machine.specs.Machine.{state_of};
ghost use Rattle.nest.specs.Nest.{processors};
ghost use Rattle.records.specs.Records.{Flattens};
ghost use Rattle.tables.specs.Given.{plan_of_table};
ghost use Rattle.engine.specs.Calls.{answer};
ghost use Rattle.engine.specs.Given.{records_after};
ghost use Rattle.tenants.specs.Tenants.{tenant_areas};
ghost use Rattle.calendar.specs.Windows.{moment_of, faulty_for};
ghost use Rattle.calendar_calls.specs.Calls.{turn_call_at, turn_call_at_for};
ghost use Rattle.calendar_calls.specs.Given.{hour_lines, away_lines, away_lines_for};

use crate::windows::{faulty_table, open_at};
use crate::{WEEK, WINDOW_WORDS};
use base::refusal::Refusal;
use engine::inner::{check_areas, step};
use recipe::open;
use records::{Flat, Progress};
use sharing::admission::held_by_other;
use sharing::inner::step_for;
use tables::{TABLE_WORDS, Table};

// Line 25: a faulty window of any of n processors, or a faulty minute.
pub fn faulty(calendar: &[u32], n: usize, minute: u32) -> bool
    requires { (n ≤ 64) × (length calendar.now ≡ 28 * n) }
    ensures { result ≡ faulty_for n (moment_of calendar.now minute) }
{
    minute >= WEEK || faulty_table(calendar, n)
}

// Lines 25, 11 and 24: faulty hours, no such processor, closed.
fn check_minute(calendar: &[u32], n: usize, minute: u32, b: usize) -> Result<(), Refusal>
    requires { (n ≤ 64) × (length calendar.now ≡ 28 * n) }
    ensures { number_of result ≡ first_of (hour_lines n (moment_of calendar.now minute) b) }
{
    if faulty(calendar, n, minute) {
        return Err(Refusal::Hours);
    }
    if b >= n {
        return Err(Refusal::NoSuch);
    }
    if !open_at(calendar, b, minute) {
        return Err(Refusal::Closed);
    }
    Ok(())
}

// Line 9 with the table of hours, then 10, 25, 11 and 24.
fn check_turn(
    table: &Table,
    source: &[u32],
    memories: &[u32],
    buffer: &[u32],
    progress: Flat,
    status: &[u8],
    hours: &[u32],
    minute: u32,
    b: usize,
) -> Result<(), Refusal>
    requires words_len { length progress.words ≡ 192 }
    ensures { ((records : List ℕ) → Flattens progress records
        → number_of result ≡ first_of (away_lines (plan_of_table table.now) source.now (moment_of hours.now minute)
        (state_of memories.now buffer.now records status.now) b))
        × IfOk result (λ _. progress.count ≡ 3 * processors table.now.layout.nest) }
{
    let n = table.layout.sizes.processors;
    if hours.len() != WINDOW_WORDS * n {
        return Err(Refusal::Area);
    }
    check_areas(table, source, memories, buffer, progress, status)?;
    check_minute(hours, n, minute, b)
}

// One turn of a processor at a minute of the week.
pub fn turn(
    encoded: &[u8],
    route: u32,
    source: &[u32],
    memories: &mut [u32],
    buffer: &mut [u32],
    progress: Flat,
    status: &mut [u8],
    hours: &[u32],
    minute: u32,
    processor: u32,
) -> Result<Progress, Refusal>
    requires { length progress.words ≡ 192 }
    ensures { (records : List ℕ) → Flattens progress records
        → answer (number_of result) (state_of memories.new buffer.new (records_after records processor result) status.new)
        ≡ turn_call_at encoded.now route source.now (moment_of hours.now minute)
        (state_of memories.old buffer.old records status.old) processor }
{
    let mut lens = [0; TABLE_WORDS];
    let table = open(encoded, route, &mut lens)?;
    let b = processor as usize;
    check_turn(
        &table, source, memories, buffer, progress, status, hours, minute, b,
    )?;
    let words = progress.words;
    let count = progress.count;
    step(
        &table,
        source,
        memories,
        buffer,
        &words[0..count],
        status,
        b,
    )
}

// Line 9 with the table of hours, then 11 for the tenant, 10, 25, 11, 24 and 19.
fn check_tenant_turn(
    table: &Table,
    source: &[u32],
    memories: &[u32],
    buffer: &[u32],
    progress: Flat,
    status: &[u8],
    engaged: &[u32],
    theirs: Flat,
    hours: &[u32],
    minute: u32,
    tenant: u32,
    b: usize,
) -> Result<(), Refusal>
    requires words_len { (length progress.words ≡ 192) × (length theirs.words ≡ 192) }
    ensures { ((records others : List ℕ) → Flattens progress records → Flattens theirs others
        → number_of result ≡ first_of (away_lines_for (plan_of_table table.now) source.now tenant (moment_of hours.now minute)
        (tenant_areas (state_of memories.now buffer.now records status.now) engaged.now) others b))
        × IfOk result (λ _. (progress.count ≡ 3 * processors table.now.layout.nest) × (theirs.count ≡ 3 * processors table.now.layout.nest)) }
{
    let n = table.layout.sizes.processors;
    if hours.len() != WINDOW_WORDS * n {
        return Err(Refusal::Area);
    }
    sharing::admission::check_areas(
        table, source, memories, buffer, progress, status, engaged, theirs, tenant,
    )?;
    check_minute(hours, n, minute, b)?;
    let words = progress.words;
    let count = progress.count;
    if held_by_other(table, &words[0..count], engaged, tenant, b) {
        return Err(Refusal::Engaged);
    }
    Ok(())
}

// One turn of a processor for a tenant at a minute of the week.
pub fn turn_for(
    encoded: &[u8],
    route: u32,
    source: &[u32],
    memories: &mut [u32],
    buffer: &mut [u32],
    progress: Flat,
    status: &mut [u8],
    engaged: &mut [u32],
    theirs: Flat,
    hours: &[u32],
    minute: u32,
    tenant: u32,
    processor: u32,
) -> Result<Progress, Refusal>
    requires { (length progress.words ≡ 192) × (length theirs.words ≡ 192) }
    ensures { (records others : List ℕ) → Flattens progress records → Flattens theirs others
        → answer (number_of result)
        (tenant_areas (state_of memories.new buffer.new (records_after records processor result) status.new)
        engaged.new)
        ≡ turn_call_at_for encoded.now route source.now tenant (moment_of hours.now minute)
        (tenant_areas (state_of memories.old buffer.old records status.old)
        engaged.old) others processor }
{
    let mut lens = [0; TABLE_WORDS];
    let table = open(encoded, route, &mut lens)?;
    let b = processor as usize;
    check_tenant_turn(
        &table, source, memories, buffer, progress, status, engaged, theirs, hours, minute, tenant,
        b,
    )?;
    let words = progress.words;
    let count = progress.count;
    step_for(
        &table,
        source,
        memories,
        buffer,
        &words[0..count],
        status,
        engaged,
        tenant,
        b,
    )
}
