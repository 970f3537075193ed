// The calls for a tenant, each by the first true line, but for the stores into the records, as in engine's `inner`: the records,
// its own and the other tenant's, are read as words, and a turn gives why it is refused or the record to be stored.
ghost use Rattle.std.specs.Prelude.{◌≡◌, ℕ, ◌+◌, ◌*◌, ◌<◌, List, length, replicate};
ghost use Rattle.base.specs.Refusals.{number_of};
ghost use Rattle.machine.specs.Machine.{state_of, turn};
ghost use Rattle.records.specs.Records.{Flattens};
ghost use Rattle.tables.specs.Given.{plan_of_table};
ghost use Rattle.engine.specs.Calls.{answer};
ghost use Rattle.engine.specs.Given.{MayTurn, records_after, zeros_after};
ghost use Rattle.tenants.specs.Tenants.{tenant_areas, sharing_of, sources_of, word_for};
ghost use Rattle.sharing.specs.Calls.{turn_call_for, deliver_call_for, collect_call_for, fresh_sharing_call};
ghost use Rattle.sharing.specs.Given.{words_after};

use crate::admission::{check_areas, check_both, check_turn};
use base::refusal::Refusal;
use engine::inner::{hand_over, step};
use engine::store_record;
use recipe::open;
use records::{Flat, Progress};
use stages::{copy_cells, tiles_left};
use tables::{TABLE_WORDS, Table};

// The word that agrees with the stage of the tenant whose turn it was.
fn word_for(tenant: u32, stage: u32) -> u32
    ensures { result ≡ word_for tenant stage }
{
    if stage == 0 { 2 } else { tenant }
}

// The stage at which processor b stands, and its shared word after it: the tenant's from the gather on, free once the tile is done.
pub fn step_for(
    table: &Table,
    source: &[u32],
    memories: &mut [u32],
    buffer: &mut [u32],
    progress: &[u32],
    status: &mut [u8],
    engaged: &mut [u32],
    tenant: u32,
    b: usize,
) -> Result<Progress, Refusal>
    requires may_turn { MayTurn (plan_of_table table.now) source.now (state_of memories.old buffer.old progress.now status.old) b }
    requires b_in_bounds { b < length engaged.old }
    ensures { (engaged.new ≡ words_after engaged.old tenant b result)
        × (answer (number_of result) (state_of memories.new buffer.new (records_after progress.now b result) status.new)
        ≡ turn (plan_of_table table.now) source.now
        (state_of memories.old buffer.old progress.now status.old) b) }
{
    let after = step(table, source, memories, buffer, progress, status, b)?;
    engaged[b] = word_for(tenant, after.stage);
    Ok(after)
}

// One turn of a processor for a tenant.
pub fn turn(
    encoded: &[u8],
    route: u32,
    source: &[u32],
    memories: &mut [u32],
    buffer: &mut [u32],
    progress: Flat,
    status: &mut [u8],
    engaged: &mut [u32],
    theirs: Flat,
    tenant: u32,
    processor: u32,
) -> Result<Progress, Refusal>
    requires { (length progress.words ≡ 192) × (length theirs.words ≡ 192) }
    ensures { (records others : List ℕ) → Flattens progress records → Flattens theirs others
        → answer (number_of result)
        (tenant_areas (state_of memories.new buffer.new (records_after records processor result) status.new)
        engaged.new)
        ≡ turn_call_for encoded.now route source.now tenant
        (tenant_areas (state_of memories.old buffer.old records status.old)
        engaged.old) others processor }
{
    let mut lens = [0; TABLE_WORDS];
    let table = open(encoded, route, &mut lens)?;
    let b = processor as usize;
    check_turn(
        &table, source, memories, buffer, progress, status, engaged, theirs, tenant, b,
    )?;
    let words = progress.words;
    let count = progress.count;
    step_for(
        &table,
        source,
        memories,
        buffer,
        &words[0..count],
        status,
        engaged,
        tenant,
        b,
    )
}

// The words of the records after a turn of a processor: its record stored, where the turn made one. The turn's number.
pub fn store_after(progress: &mut [u32], processor: u32, after: &Result<Progress, Refusal>) -> u32
    requires { number_of after.now ≡ 0 → 3 * processor + 2 < length progress.old }
    ensures { (progress.new ≡ records_after progress.old processor after.now) × (result ≡ number_of after.now) }
{
    match after {
        Ok(record) => {
            store_record(progress, processor as usize, *record);
            0
        }
        Err(refusal) => refusal.number(),
    }
}

// The delivery of a message for a tenant.
pub fn deliver(
    encoded: &[u8],
    route: u32,
    source: &[u32],
    memories: &[u32],
    buffer: &[u32],
    progress: Flat,
    status: &mut [u8],
    engaged: &[u32],
    theirs: Flat,
    tenant: u32,
    message: u32,
) -> Result<(), Refusal>
    requires { (length progress.words ≡ 192) × (length theirs.words ≡ 192) }
    ensures { (records others : List ℕ) → Flattens progress records → Flattens theirs others
        → answer (number_of result) (tenant_areas (state_of memories.now buffer.now records status.new) engaged.now)
        ≡ deliver_call_for encoded.now route source.now tenant
        (tenant_areas (state_of memories.now buffer.now records status.old)
        engaged.now) others message }
{
    let mut lens = [0; TABLE_WORDS];
    let table = open(encoded, route, &mut lens)?;
    check_areas(
        &table, source, memories, buffer, progress, status, engaged, theirs, tenant,
    )?;
    hand_over(status, message)
}

// A tenant's grid, once all processors have finished for it.
pub fn collect(
    encoded: &[u8],
    route: u32,
    source: &[u32],
    memories: &[u32],
    buffer: &[u32],
    progress: Flat,
    status: &[u8],
    engaged: &[u32],
    theirs: Flat,
    tenant: u32,
    grid: &mut [u32],
) -> Result<(), Refusal>
    requires { (length progress.words ≡ 192) × (length theirs.words ≡ 192) }
    ensures { (records others : List ℕ) → Flattens progress records → Flattens theirs others
        → answer (number_of result) grid.new
        ≡ collect_call_for encoded.now route source.now tenant
        (tenant_areas (state_of memories.now buffer.now records status.now)
        engaged.now) others grid.old }
{
    let mut lens = [0; TABLE_WORDS];
    let table = open(encoded, route, &mut lens)?;
    if grid.len() != table.layout.sizes.cells {
        return Err(Refusal::Area);
    }
    check_areas(
        &table, source, memories, buffer, progress, status, engaged, theirs, tenant,
    )?;
    let words = progress.words;
    let count = progress.count;
    if tiles_left(&table, &words[0..count]) {
        return Err(Refusal::Early);
    }
    copy_cells(&table.layout, memories, grid);
    Ok(())
}

// One tenant's memories, buffer and marks.
fn clear(memories: &mut [u32], buffer: &mut [u32], status: &mut [u8])
    ensures { (memories.new ≡ replicate (length memories.old) 0)
        × ((buffer.new ≡ replicate (length buffer.old) 0)
        × (status.new ≡ replicate (length status.old) 0)) }
{
    memories.fill(0);
    buffer.fill(0);
    status.fill(0);
}

// A fresh start of both tenants together, but for the records, which have `words0` and `words1` words.
pub fn fresh(
    encoded: &[u8],
    route: u32,
    source0: &[u32],
    memories0: &mut [u32],
    buffer0: &mut [u32],
    words0: usize,
    status0: &mut [u8],
    source1: &[u32],
    memories1: &mut [u32],
    buffer1: &mut [u32],
    words1: usize,
    status1: &mut [u8],
    engaged: &mut [u32],
) -> Result<(), Refusal>
    ensures { (records others : List ℕ) → words0 ≡ length records → words1 ≡ length others
        → answer (number_of result) (sharing_of (state_of memories0.new buffer0.new (zeros_after records (number_of result)) status0.new)
        (state_of memories1.new buffer1.new (zeros_after others (number_of result)) status1.new) engaged.new)
        ≡ fresh_sharing_call encoded.now route (sources_of source0.now source1.now)
        (sharing_of (state_of memories0.old buffer0.old records status0.old)
        (state_of memories1.old buffer1.old others status1.old) engaged.old) }
{
    check_both(
        encoded,
        route,
        source0,
        memories0,
        buffer0,
        words0,
        status0,
        source1,
        memories1,
        buffer1,
        words1,
        status1,
        engaged.len(),
    )?;
    clear(memories0, buffer0, status0);
    clear(memories1, buffer1, status1);
    engaged.fill(2); // every processor is free
    Ok(())
}

// The words of a tenant's records after a fresh start that gave this number.
pub fn clear_records(progress: &mut [u32], number: u32)
    ensures { progress.new ≡ zeros_after progress.old number }
{
    if number == 0 {
        progress.fill(0);
    }
}
