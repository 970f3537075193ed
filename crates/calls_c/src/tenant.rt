// The calls of crates/calls/src/tenant.rt with C linkage, each with the clauses that it has there. tools/exports.py writes this file.
ghost use Rattle.machine.specs.Runs.{turn_of, delivery_of};
ghost use Rattle.tenants.specs.Tenants.{sources_of};
ghost use Rattle.calls.specs.Gave.{areas_of, lent_areas_of, sharing_areas_of, TenantGave, TenantCollectGave, FreshBothGave, ViewGave};

use calls::tenant::Viewed;
use records::Progress;

// One turn of a processor for a tenant.
#[unsafe(no_mangle)]
pub extern "C" fn rolwyddac_tenant_turn(
    encoded: &[u8],
    route: u32,
    source: &[u32],
    memories: &mut [u32],
    buffer: &mut [u32],
    progress: &mut [Progress],
    status: &mut [u8],
    engaged: &mut [u32],
    other: &[Progress],
    tenant: u32,
    processor: u32,
) -> u32
    ensures { TenantGave encoded.now route source.now tenant other.now
        (lent_areas_of (areas_of memories.old buffer.old progress.old status.old) engaged.old)
        (turn_of processor)
        result (lent_areas_of (areas_of memories.new buffer.new progress.new status.new) engaged.new) }
{
    calls::tenant::rolwyddac_tenant_turn(
        encoded, route, source, memories, buffer, progress, status, engaged, other, tenant,
        processor,
    )
}

// The delivery of a message for a tenant.
#[unsafe(no_mangle)]
pub extern "C" fn rolwyddac_tenant_deliver(
    encoded: &[u8],
    route: u32,
    source: &[u32],
    memories: &[u32],
    buffer: &[u32],
    progress: &[Progress],
    status: &mut [u8],
    engaged: &[u32],
    other: &[Progress],
    tenant: u32,
    message: u32,
) -> u32
    ensures { TenantGave encoded.now route source.now tenant other.now
        (lent_areas_of (areas_of memories.now buffer.now progress.now status.old) engaged.now)
        (delivery_of message)
        result (lent_areas_of (areas_of memories.now buffer.now progress.now status.new) engaged.now) }
{
    calls::tenant::rolwyddac_tenant_deliver(
        encoded, route, source, memories, buffer, progress, status, engaged, other, tenant, message,
    )
}

// A tenant's grid, once all processors have finished for it.
#[unsafe(no_mangle)]
pub extern "C" fn rolwyddac_tenant_collect(
    encoded: &[u8],
    route: u32,
    source: &[u32],
    memories: &[u32],
    buffer: &[u32],
    progress: &[Progress],
    status: &[u8],
    engaged: &[u32],
    other: &[Progress],
    tenant: u32,
    grid: &mut [u32],
) -> u32
    ensures { TenantCollectGave encoded.now route source.now tenant other.now
        (lent_areas_of (areas_of memories.now buffer.now progress.now status.now) engaged.now)
        grid.old result grid.new }
{
    calls::tenant::rolwyddac_tenant_collect(
        encoded, route, source, memories, buffer, progress, status, engaged, other, tenant, grid,
    )
}

// A fresh start of both tenants together.
#[unsafe(no_mangle)]
pub extern "C" fn rolwyddac_fresh_both(
    encoded: &[u8],
    route: u32,
    first_source: &[u32],
    first_memories: &mut [u32],
    first_buffer: &mut [u32],
    first_progress: &mut [Progress],
    first_status: &mut [u8],
    second_source: &[u32],
    second_memories: &mut [u32],
    second_buffer: &mut [u32],
    second_progress: &mut [Progress],
    second_status: &mut [u8],
    engaged: &mut [u32],
) -> u32
    ensures { FreshBothGave encoded.now route (sources_of first_source.now second_source.now)
        (sharing_areas_of (areas_of first_memories.old first_buffer.old first_progress.old first_status.old)
        (areas_of second_memories.old second_buffer.old second_progress.old second_status.old)
        engaged.old)
        result
        (sharing_areas_of (areas_of first_memories.new first_buffer.new first_progress.new first_status.new)
        (areas_of second_memories.new second_buffer.new second_progress.new second_status.new)
        engaged.new) }
{
    calls::tenant::rolwyddac_fresh_both(
        encoded,
        route,
        first_source,
        first_memories,
        first_buffer,
        first_progress,
        first_status,
        second_source,
        second_memories,
        second_buffer,
        second_progress,
        second_status,
        engaged,
    )
}

// A view of a processor's memory.
#[unsafe(no_mangle)]
pub extern "C" fn rolwyddac_view(
    encoded: &[u8],
    first: &[u32],
    second: &[u32],
    tenant: u32,
    processor: u32,
) -> Viewed
    ensures { ViewGave encoded.now first.now second.now tenant processor result }
{
    calls::tenant::rolwyddac_view(encoded, first, second, tenant, processor)
}
