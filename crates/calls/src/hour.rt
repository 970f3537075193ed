// The calls with hours with C linkage: a turn at a minute of the week, for one tenant and for one of two, over progress records as structs;
// and the minutes until a processor next opens. `hours` is the table, 14 pairs of words a processor.
ghost use Rattle.std.specs.Prelude.{◌≡◌};
ghost use Rattle.calendar.specs.Windows.{moment_of, turn_at};
ghost use Rattle.calls.specs.Gave.{areas_of, lent_areas_of, TimedGave, TenantTimedGave, OpensGave};
ghost use Rattle.calls.specs.Opens.{tells, opening_told};

use records::Progress;

// One turn of a processor.
#[unsafe(no_mangle)]
pub extern "C" fn rolwyddac_turn_at(
    encoded: &[u8],
    route: u32,
    source: &[u32],
    memories: &mut [u32],
    buffer: &mut [u32],
    progress: &mut [Progress],
    status: &mut [u8],
    hours: &[u32],
    minute: u32,
    processor: u32,
) -> u32
    ensures { TimedGave encoded.now route source.now
        (areas_of memories.old buffer.old progress.old status.old)
        (turn_at (moment_of hours.now minute) processor)
        result (areas_of memories.new buffer.new progress.new status.new) }
{
    let flat = records::flatten(progress);
    let after = calendar_calls::inner::turn(
        encoded, route, source, memories, buffer, flat, status, hours, minute, processor,
    );
    records::put(progress, processor, after)
}

// One turn of a processor for a tenant.
#[unsafe(no_mangle)]
pub extern "C" fn rolwyddac_tenant_turn_at(
    encoded: &[u8],
    route: u32,
    source: &[u32],
    memories: &mut [u32],
    buffer: &mut [u32],
    progress: &mut [Progress],
    status: &mut [u8],
    engaged: &mut [u32],
    other: &[Progress],
    hours: &[u32],
    minute: u32,
    tenant: u32,
    processor: u32,
) -> u32
    ensures { TenantTimedGave encoded.now route source.now tenant other.now
        (lent_areas_of (areas_of memories.old buffer.old progress.old status.old) engaged.old)
        (turn_at (moment_of hours.now minute) processor)
        result (lent_areas_of (areas_of memories.new buffer.new progress.new status.new) engaged.new) }
{
    let own = records::flatten(progress);
    let theirs = records::flatten(other);
    let after = calendar_calls::inner::turn_for(
        encoded, route, source, memories, buffer, own, status, engaged, theirs, hours, minute,
        tenant, processor,
    );
    records::put(progress, processor, after)
}

// What is told of an opening: the call's number, 1 and in how many minutes, or 0 and 0 where there is none; 0 and 0 at a refusal.
#[repr(C)]
#[derive(Clone, Copy)]
pub struct NextOpening {
    pub number: u32,
    pub opens: u32,
    pub minutes: u32,
}

fn tell(number: u32, opens: u32, minutes: u32) -> NextOpening
    ensures { result ≡ tells number opens minutes }
{
    NextOpening {
        number,
        opens,
        minutes,
    }
}

fn tell_opening(opening: Option<u32>) -> NextOpening
    ensures { result ≡ opening_told opening }
{
    match opening {
        Some(minutes) => tell(0, 1, minutes),
        None => tell(0, 0, 0),
    }
}

// When a processor next opens, lent only the table.
#[unsafe(no_mangle)]
pub extern "C" fn rolwyddac_opens(
    encoded: &[u8],
    hours: &[u32],
    minute: u32,
    processor: u32,
) -> NextOpening
    ensures { OpensGave encoded.now (moment_of hours.now minute) processor result }
{
    match calendar_calls::opens(encoded, hours, minute, processor) {
        Ok(opening) => tell_opening(opening),
        Err(refusal) => tell(refusal.number(), 0, 0),
    }
}
