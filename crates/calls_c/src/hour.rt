// The calls of crates/calls/src/hour.rt with C linkage, each with the clauses that it has there. tools/exports.py writes this file.
ghost use Rattle.calendar.specs.Windows.{moment_of, turn_at};
ghost use Rattle.calls.specs.Gave.{areas_of, lent_areas_of, TimedGave, TenantTimedGave, OpensGave};

use calls::hour::NextOpening;
use records::Progress;

// One turn of a processor.
#[unsafe(no_mangle)]
pub extern "C" fn rolwyddac_turn_at(
    encoded: &[u8],
    route: u32,
    source: &[u32],
    memories: &mut [u32],
    buffer: &mut [u32],
    progress: &mut [Progress],
    status: &mut [u8],
    hours: &[u32],
    minute: u32,
    processor: u32,
) -> u32
    ensures { TimedGave encoded.now route source.now
        (areas_of memories.old buffer.old progress.old status.old)
        (turn_at (moment_of hours.now minute) processor)
        result (areas_of memories.new buffer.new progress.new status.new) }
{
    calls::hour::rolwyddac_turn_at(
        encoded, route, source, memories, buffer, progress, status, hours, minute, processor,
    )
}

// One turn of a processor for a tenant.
#[unsafe(no_mangle)]
pub extern "C" fn rolwyddac_tenant_turn_at(
    encoded: &[u8],
    route: u32,
    source: &[u32],
    memories: &mut [u32],
    buffer: &mut [u32],
    progress: &mut [Progress],
    status: &mut [u8],
    engaged: &mut [u32],
    other: &[Progress],
    hours: &[u32],
    minute: u32,
    tenant: u32,
    processor: u32,
) -> u32
    ensures { TenantTimedGave encoded.now route source.now tenant other.now
        (lent_areas_of (areas_of memories.old buffer.old progress.old status.old) engaged.old)
        (turn_at (moment_of hours.now minute) processor)
        result (lent_areas_of (areas_of memories.new buffer.new progress.new status.new) engaged.new) }
{
    calls::hour::rolwyddac_tenant_turn_at(
        encoded, route, source, memories, buffer, progress, status, engaged, other, hours, minute,
        tenant, processor,
    )
}

// When a processor next opens, lent only the table.
#[unsafe(no_mangle)]
pub extern "C" fn rolwyddac_opens(
    encoded: &[u8],
    hours: &[u32],
    minute: u32,
    processor: u32,
) -> NextOpening
    ensures { OpensGave encoded.now (moment_of hours.now minute) processor result }
{
    calls::hour::rolwyddac_opens(encoded, hours, minute, processor)
}
