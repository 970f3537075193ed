// The calls for one of two tenants on the same processors (W-208), for programs, which keep the records as words, three a processor.
// The rules of engaging and freeing a processor are crate `tenants`'; the stages are the engine's.
#![tactic(auto)]

ghost use Rattle.std.specs.Prelude.{◌≡◌};
ghost use Rattle.machine.specs.Machine.{state_of};
ghost use Rattle.tenants.specs.Tenants.{tenant_areas, sharing_of, sources_of};
ghost use Rattle.engine.specs.Calls.{answer};
ghost use Rattle.sharing.specs.Calls.{turn_call_for, deliver_call_for, collect_call_for, fresh_sharing_call};

pub mod admission; // admission.rt: what a call tests first, past the recipe's lines
pub mod inner; // inner.rt: the calls without the stores into the records
pub mod view; // view.rt: the view at a processor's memory, lent both tenants' memories and nothing else

use base::refusal::number_of;
use records::flat_of;

// A fresh start of both tenants together: each one's areas, and the shared words.
pub fn fresh(
    encoded: &[u8],
    route: u32,
    source0: &[u32],
    memories0: &mut [u32],
    buffer0: &mut [u32],
    progress0: &mut [u32],
    status0: &mut [u8],
    source1: &[u32],
    memories1: &mut [u32],
    buffer1: &mut [u32],
    progress1: &mut [u32],
    status1: &mut [u8],
    engaged: &mut [u32],
) -> u32
    ensures { answer result (sharing_of (state_of memories0.new buffer0.new progress0.new status0.new)
        (state_of memories1.new buffer1.new progress1.new status1.new) engaged.new)
        ≡ fresh_sharing_call encoded.now route (sources_of source0.now source1.now)
        (sharing_of (state_of memories0.old buffer0.old progress0.old status0.old)
        (state_of memories1.old buffer1.old progress1.old status1.old)
        engaged.old) }
{
    let answer = inner::fresh(
        encoded,
        route,
        source0,
        memories0,
        buffer0,
        progress0.len(),
        status0,
        source1,
        memories1,
        buffer1,
        progress1.len(),
        status1,
        engaged,
    );
    let number = number_of(&answer);
    inner::clear_records(progress0, number);
    inner::clear_records(progress1, number);
    number
}

// One turn of a processor for a tenant; `theirs` are the other tenant's records.
pub fn turn(
    encoded: &[u8],
    route: u32,
    source: &[u32],
    memories: &mut [u32],
    buffer: &mut [u32],
    progress: &mut [u32],
    status: &mut [u8],
    engaged: &mut [u32],
    theirs: &[u32],
    tenant: u32,
    processor: u32,
) -> u32
    ensures { answer result
        (tenant_areas (state_of memories.new buffer.new progress.new status.new) engaged.new)
        ≡ turn_call_for encoded.now route source.now tenant
        (tenant_areas (state_of memories.old buffer.old progress.old status.old)
        engaged.old) theirs.now processor }
{
    let after = inner::turn(
        encoded,
        route,
        source,
        memories,
        buffer,
        flat_of(progress),
        status,
        engaged,
        flat_of(theirs),
        tenant,
        processor,
    );
    inner::store_after(progress, processor, &after)
}

// The delivery of a message for a tenant.
pub fn deliver(
    encoded: &[u8],
    route: u32,
    source: &[u32],
    memories: &[u32],
    buffer: &[u32],
    progress: &[u32],
    status: &mut [u8],
    engaged: &[u32],
    theirs: &[u32],
    tenant: u32,
    message: u32,
) -> u32
    ensures { answer result
        (tenant_areas (state_of memories.now buffer.now progress.now status.new) engaged.now)
        ≡ deliver_call_for encoded.now route source.now tenant
        (tenant_areas (state_of memories.now buffer.now progress.now status.old)
        engaged.now) theirs.now message }
{
    let answer = inner::deliver(
        encoded,
        route,
        source,
        memories,
        buffer,
        flat_of(progress),
        status,
        engaged,
        flat_of(theirs),
        tenant,
        message,
    );
    number_of(&answer)
}

// A tenant's grid, once all processors have finished for it.
pub fn collect(
    encoded: &[u8],
    route: u32,
    source: &[u32],
    memories: &[u32],
    buffer: &[u32],
    progress: &[u32],
    status: &[u8],
    engaged: &[u32],
    theirs: &[u32],
    tenant: u32,
    grid: &mut [u32],
) -> u32
    ensures { answer result grid.new
        ≡ collect_call_for encoded.now route source.now tenant
        (tenant_areas (state_of memories.now buffer.now progress.now status.now)
        engaged.now) theirs.now grid.old }
{
    let answer = inner::collect(
        encoded,
        route,
        source,
        memories,
        buffer,
        flat_of(progress),
        status,
        engaged,
        flat_of(theirs),
        tenant,
        grid,
    );
    number_of(&answer)
}
