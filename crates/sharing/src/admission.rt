// What a call on two tenants tests first, past the recipe's lines: the areas' lengths, both tenants' records, the shared words; and all that a
// fresh start tests, the recipe's lines with it. The records are read as words, as in `inner`.
ghost use Rattle.std.specs.Prelude.{◌≡◌, ℕ, ◌+◌, ◌*◌, ◌<◌, ◌≤◌, List, [], length, IfOk};
ghost use Rattle.base.specs.Tests.{every};
ghost use Rattle.base.specs.Numbers.{first_of};
ghost use Rattle.base.specs.Refusals.{number_of};
ghost use Rattle.machine.specs.Plan.{count};
ghost use Rattle.machine.specs.Machine.{state_of, progress_only};
ghost use Rattle.nest.specs.Nest.{processors};
ghost use Rattle.records.specs.Records.{Flattens};
ghost use Rattle.tables.specs.Given.{plan_of_table};
ghost use Rattle.tenants.specs.Tenants.{other_than, tenant_areas, sharing_of, sources_of, stage_agrees, fit_word, fit_for, held_by_other};
ghost use Rattle.sharing.specs.Calls.{fresh_sharing_lines};
ghost use Rattle.sharing.specs.Given.{unfit_lines_for, barred_lines_for};

use base::refusal::Refusal;
use engine::inner::areas_fit;
use recipe::open;
use records::Flat;
use stages::{fit_records, fit_status};
use tables::{TABLE_WORDS, Table};

// The stage of the tenant that holds the processor is 1 or 2, any other's is 0.
fn stage_agrees(holder: u32, tenant: u32, stage: u32) -> bool
    ensures { result ≡ stage_agrees holder tenant stage }
{
    if holder == tenant {
        stage == 1 || stage == 2
    } else {
        stage == 0
    }
}

// Of tenants 0 and 1, the one that is not `tenant`.
fn other(tenant: u32) -> u32
    requires { tenant ≤ 1 }
    ensures { result ≡ other_than tenant }
{
    1 - tenant
}

// Every processor's shared word is 0, 1 or 2 and agrees with both tenants' stages.
fn fit_words(engaged: &[u32], progress: &[u32], theirs: &[u32], tenant: u32) -> bool
    requires { (length progress.now ≡ 3 * length engaged.now) × ((length theirs.now ≡ 3 * length engaged.now) × (tenant ≤ 1)) }
    ensures { result ≡ every (fit_word tenant
        (tenant_areas (progress_only progress.now) engaged.now) theirs.now) (length engaged.now) }
{
    let second = other(tenant);
    for (b, holder) in engaged.iter().enumerate() {
        if *holder > 2 {
            return false;
        }
        if !stage_agrees(*holder, tenant, progress[3 * b + 1]) {
            return false;
        }
        if !stage_agrees(*holder, second, theirs[3 * b + 1]) {
            return false;
        }
    }
    true
}

// Line 10: the tenant's own records and marks, the other's records, the shared words.
fn fit_sharing(
    table: &Table,
    progress: &[u32],
    status: &[u8],
    engaged: &[u32],
    theirs: &[u32],
    tenant: u32,
) -> bool
    requires progress_len { (length progress.now ≡ 3 * processors table.now.layout.nest) × (length status.now ≡ count (plan_of_table table.now)) }
    requires engaged_len { (length engaged.now ≡ processors table.now.layout.nest) × ((length theirs.now ≡ 3 * processors table.now.layout.nest) × (tenant ≤ 1)) }
    ensures { result ≡ fit_for (plan_of_table table.now) tenant
        (tenant_areas (state_of [] [] progress.now status.now) engaged.now) theirs.now }
{
    if !fit_records(table, progress) {
        return false;
    }
    if !fit_status(status) {
        return false;
    }
    if !fit_records(table, theirs) {
        return false;
    }
    fit_words(engaged, progress, theirs, tenant)
}

// Lines 9, 11 for the tenant, and 10.
pub fn check_areas(
    table: &Table,
    source: &[u32],
    memories: &[u32],
    buffer: &[u32],
    progress: Flat,
    status: &[u8],
    engaged: &[u32],
    theirs: Flat,
    tenant: u32,
) -> Result<(), Refusal>
    requires words_len { (length progress.words ≡ 192) × (length theirs.words ≡ 192) }
    ensures { ((records others : List ℕ) → Flattens progress records → Flattens theirs others
        → number_of result ≡ first_of (unfit_lines_for (plan_of_table table.now) source.now tenant
        (tenant_areas (state_of memories.now buffer.now records status.now) engaged.now) others))
        × IfOk result (λ _. (progress.count ≡ 3 * processors table.now.layout.nest) × (theirs.count ≡ 3 * processors table.now.layout.nest)) }
{
    let count = progress.count;
    let others = theirs.count;
    let processors = table.layout.sizes.processors;
    if !areas_fit(table, source, memories, buffer, count, status)
        || engaged.len() != processors
        || others != 3 * processors
    {
        return Err(Refusal::Area);
    }
    if tenant > 1 {
        return Err(Refusal::NoSuch);
    }
    let words = progress.words;
    let their_words = theirs.words;
    if !fit_sharing(
        table,
        &words[0..count],
        status,
        engaged,
        &their_words[0..others],
        tenant,
    ) {
        return Err(Refusal::Unfit);
    }
    Ok(())
}

// Line 19: the tenant has tiles left on processor b, and the other holds it.
pub fn held_by_other(
    table: &Table,
    progress: &[u32],
    engaged: &[u32],
    tenant: u32,
    b: usize,
) -> bool
    requires progress_len { (length progress.now ≡ 3 * processors table.now.layout.nest) × (length engaged.now ≡ processors table.now.layout.nest) }
    requires b_bound { (b < processors table.now.layout.nest) × (tenant ≤ 1) }
    ensures { result ≡ held_by_other (plan_of_table table.now) tenant
        (tenant_areas (progress_only progress.now) engaged.now) b }
{
    let finished = progress[3 * b] as usize;
    let n = table.tile_count(b);
    if finished >= n {
        return false;
    }
    engaged[b] == other(tenant)
}

// Lines 9, 11 for the tenant, 10, 11 for the processor, and 19.
pub fn check_turn(
    table: &Table,
    source: &[u32],
    memories: &[u32],
    buffer: &[u32],
    progress: Flat,
    status: &[u8],
    engaged: &[u32],
    theirs: Flat,
    tenant: u32,
    b: usize,
) -> Result<(), Refusal>
    requires words_len { (length progress.words ≡ 192) × (length theirs.words ≡ 192) }
    ensures { ((records others : List ℕ) → Flattens progress records → Flattens theirs others
        → number_of result ≡ first_of (barred_lines_for (plan_of_table table.now) source.now tenant
        (tenant_areas (state_of memories.now buffer.now records status.now) engaged.now) others b))
        × IfOk result (λ _. (progress.count ≡ 3 * processors table.now.layout.nest) × (theirs.count ≡ 3 * processors table.now.layout.nest)) }
{
    check_areas(
        table, source, memories, buffer, progress, status, engaged, theirs, tenant,
    )?;
    if b >= table.layout.sizes.processors {
        return Err(Refusal::NoSuch);
    }
    let words = progress.words;
    let count = progress.count;
    if held_by_other(table, &words[0..count], engaged, tenant, b) {
        return Err(Refusal::Engaged);
    }
    Ok(())
}

// Why there is no fresh start: the recipe's lines, then 9 where an area of a tenant or the shared words have another length.
pub fn check_both(
    encoded: &[u8],
    route: u32,
    source0: &[u32],
    memories0: &[u32],
    buffer0: &[u32],
    words0: usize,
    status0: &[u8],
    source1: &[u32],
    memories1: &[u32],
    buffer1: &[u32],
    words1: usize,
    status1: &[u8],
    shared: usize,
) -> Result<(), Refusal>
    ensures { (records others engaged : List ℕ) → words0 ≡ length records → words1 ≡ length others → shared ≡ length engaged
        → number_of result ≡ first_of (fresh_sharing_lines encoded.now route (sources_of source0.now source1.now)
        (sharing_of (state_of memories0.now buffer0.now records status0.now)
        (state_of memories1.now buffer1.now others status1.now) engaged)) }
{
    let mut lens = [0; TABLE_WORDS];
    let table = open(encoded, route, &mut lens)?;
    if !areas_fit(&table, source0, memories0, buffer0, words0, status0)
        || !areas_fit(&table, source1, memories1, buffer1, words1, status1)
        || shared != table.layout.sizes.processors
    {
        return Err(Refusal::Area);
    }
    Ok(())
}
