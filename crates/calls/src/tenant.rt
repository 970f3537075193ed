// The calls for a tenant (the paper: an office), with C linkage, over progress records as structs: a fresh start of both tenants together; a turn, a delivery
// and collecting for one of them, to which the other's records are lent only to read; and the view of a processor's
// memory.
ghost use Rattle.std.specs.Prelude.{◌≡◌};
ghost use Rattle.base.specs.Refusals.{code};
ghost use Rattle.machine.specs.Runs.{turn_of, delivery_of};
ghost use Rattle.tenants.specs.Tenants.{sources_of};
ghost use Rattle.calls.specs.Gave.{areas_of, lent_areas_of, sharing_areas_of, TenantGave, TenantCollectGave, FreshBothGave, ViewGave};
ghost use Rattle.calls.specs.View.{no_view};

use base::refusal::{Refusal, number_of};
use records::Progress;
use sharing::view::inner::view_at;

// One turn of a processor for a tenant.
#[unsafe(no_mangle)]
pub extern "C" fn rolwyddac_tenant_turn(
    encoded: &[u8],
    route: u32,
    source: &[u32],
    memories: &mut [u32],
    buffer: &mut [u32],
    progress: &mut [Progress],
    status: &mut [u8],
    engaged: &mut [u32],
    other: &[Progress],
    tenant: u32,
    processor: u32,
) -> u32
    ensures { TenantGave encoded.now route source.now tenant other.now
        (lent_areas_of (areas_of memories.old buffer.old progress.old status.old) engaged.old)
        (turn_of processor)
        result (lent_areas_of (areas_of memories.new buffer.new progress.new status.new) engaged.new) }
{
    let own = records::flatten(progress);
    let theirs = records::flatten(other);
    let after = sharing::inner::turn(
        encoded, route, source, memories, buffer, own, status, engaged, theirs, tenant, processor,
    );
    records::put(progress, processor, after)
}

// The delivery of a message for a tenant.
#[unsafe(no_mangle)]
pub extern "C" fn rolwyddac_tenant_deliver(
    encoded: &[u8],
    route: u32,
    source: &[u32],
    memories: &[u32],
    buffer: &[u32],
    progress: &[Progress],
    status: &mut [u8],
    engaged: &[u32],
    other: &[Progress],
    tenant: u32,
    message: u32,
) -> u32
    ensures { TenantGave encoded.now route source.now tenant other.now
        (lent_areas_of (areas_of memories.now buffer.now progress.now status.old) engaged.now)
        (delivery_of message)
        result (lent_areas_of (areas_of memories.now buffer.now progress.now status.new) engaged.now) }
{
    let own = records::flatten(progress);
    let theirs = records::flatten(other);
    number_of(&sharing::inner::deliver(
        encoded, route, source, memories, buffer, own, status, engaged, theirs, tenant, message,
    ))
}

// A tenant's grid, once all processors have finished for it.
#[unsafe(no_mangle)]
pub extern "C" fn rolwyddac_tenant_collect(
    encoded: &[u8],
    route: u32,
    source: &[u32],
    memories: &[u32],
    buffer: &[u32],
    progress: &[Progress],
    status: &[u8],
    engaged: &[u32],
    other: &[Progress],
    tenant: u32,
    grid: &mut [u32],
) -> u32
    ensures { TenantCollectGave encoded.now route source.now tenant other.now
        (lent_areas_of (areas_of memories.now buffer.now progress.now status.now) engaged.now)
        grid.old result grid.new }
{
    let own = records::flatten(progress);
    let theirs = records::flatten(other);
    number_of(&sharing::inner::collect(
        encoded, route, source, memories, buffer, own, status, engaged, theirs, tenant, grid,
    ))
}

// A fresh start of both tenants together.
#[unsafe(no_mangle)]
pub extern "C" fn rolwyddac_fresh_both(
    encoded: &[u8],
    route: u32,
    first_source: &[u32],
    first_memories: &mut [u32],
    first_buffer: &mut [u32],
    first_progress: &mut [Progress],
    first_status: &mut [u8],
    second_source: &[u32],
    second_memories: &mut [u32],
    second_buffer: &mut [u32],
    second_progress: &mut [Progress],
    second_status: &mut [u8],
    engaged: &mut [u32],
) -> u32
    ensures { FreshBothGave encoded.now route (sources_of first_source.now second_source.now)
        (sharing_areas_of (areas_of first_memories.old first_buffer.old first_progress.old first_status.old)
        (areas_of second_memories.old second_buffer.old second_progress.old second_status.old)
        engaged.old)
        result
        (sharing_areas_of (areas_of first_memories.new first_buffer.new first_progress.new first_status.new)
        (areas_of second_memories.new second_buffer.new second_progress.new second_status.new)
        engaged.new) }
{
    let first_words = 3 * first_progress.len();
    let second_words = 3 * second_progress.len();
    let number = number_of(&sharing::inner::fresh(
        encoded,
        route,
        first_source,
        first_memories,
        first_buffer,
        first_words,
        first_status,
        second_source,
        second_memories,
        second_buffer,
        second_words,
        second_status,
        engaged,
    ));
    records::clear(first_progress, number);
    records::clear(second_progress, number);
    number
}

// What a view tells: its number, where the processor's part begins in the named tenant's memories, and how many words it has; nothing at a refusal.
#[repr(C)]
#[derive(Clone, Copy)]
pub struct Viewed {
    pub number: u32,
    pub begin: u32,
    pub length: u32,
}

fn no_view(refusal: Refusal) -> Viewed
    ensures { result ≡ no_view (code refusal) }
{
    Viewed {
        number: refusal.number(),
        begin: 0,
        length: 0,
    }
}

// A view of a processor's memory.
#[unsafe(no_mangle)]
pub extern "C" fn rolwyddac_view(
    encoded: &[u8],
    first: &[u32],
    second: &[u32],
    tenant: u32,
    processor: u32,
) -> Viewed
    ensures { ViewGave encoded.now first.now second.now tenant processor result }
{
    match view_at(encoded, first.len(), second.len(), tenant, processor) {
        Ok(seen) => Viewed {
            number: 0,
            begin: seen.start as u32,
            length: seen.words as u32,
        },
        Err(refusal) => no_view(refusal),
    }
}
