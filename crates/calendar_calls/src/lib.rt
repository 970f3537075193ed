// The calls with hours, for programs, which keep the records as words, three a processor: a turn at a minute of the week, for one tenant and
// for one of two, and the minutes until a processor next opens. `hours` is the table, 14 pairs of words a processor.
#![tactic(auto)]

ghost use Rattle.std.specs.Prelude.{◌≡◌};
ghost use Rattle.base.specs.Refusals.{number_of};
ghost use Rattle.machine.specs.Machine.{state_of};
ghost use Rattle.tenants.specs.Tenants.{tenant_areas};
ghost use Rattle.calendar.specs.Windows.{moment_of};
ghost use Rattle.engine.specs.Calls.{answer};
ghost use Rattle.calendar_calls.specs.Calls.{turn_call_at, turn_call_at_for, opens_call};
ghost use Rattle.calendar_calls.specs.Given.{told};

pub mod inner; // inner.rt: the calls without the stores into the records
pub mod windows; // windows.rt: code of the hours (W-212): faulty windows, open at a minute, minutes until a processor opens

use crate::windows::minutes;
use base::refusal::Refusal;
use recipe::lay_out;
use records::flat_of;
use sharing::inner::store_after;

// Minutes of a week.
pub const WEEK: u32 = 10080;

// Fourteen windows of a processor, the minute that opens and the one that closes.
pub const WINDOW_WORDS: usize = 28;

// One turn of a processor.
pub fn turn(
    encoded: &[u8],
    route: u32,
    source: &[u32],
    memories: &mut [u32],
    buffer: &mut [u32],
    progress: &mut [u32],
    status: &mut [u8],
    hours: &[u32],
    minute: u32,
    processor: u32,
) -> u32
    ensures { answer result (state_of memories.new buffer.new progress.new status.new)
        ≡ turn_call_at encoded.now route source.now (moment_of hours.now minute)
        (state_of memories.old buffer.old progress.old status.old) processor }
{
    let after = inner::turn(
        encoded,
        route,
        source,
        memories,
        buffer,
        flat_of(progress),
        status,
        hours,
        minute,
        processor,
    );
    store_after(progress, processor, &after)
}

// One turn of a processor for a tenant; `theirs` are the other tenant's records.
pub fn turn_for(
    encoded: &[u8],
    route: u32,
    source: &[u32],
    memories: &mut [u32],
    buffer: &mut [u32],
    progress: &mut [u32],
    status: &mut [u8],
    engaged: &mut [u32],
    theirs: &[u32],
    hours: &[u32],
    minute: u32,
    tenant: u32,
    processor: u32,
) -> u32
    ensures { answer result
        (tenant_areas (state_of memories.new buffer.new progress.new status.new) engaged.new)
        ≡ turn_call_at_for encoded.now route source.now tenant (moment_of hours.now minute)
        (tenant_areas (state_of memories.old buffer.old progress.old status.old)
        engaged.old) theirs.now processor }
{
    let after = inner::turn_for(
        encoded,
        route,
        source,
        memories,
        buffer,
        flat_of(progress),
        status,
        engaged,
        flat_of(theirs),
        hours,
        minute,
        tenant,
        processor,
    );
    store_after(progress, processor, &after)
}

// Minutes until a processor next opens, lent only the table.
pub fn opens(
    encoded: &[u8],
    hours: &[u32],
    minute: u32,
    processor: u32,
) -> Result<Option<u32>, Refusal>
    ensures { answer (number_of result) (told result) ≡ opens_call encoded.now (moment_of hours.now minute) processor }
{
    let layout = lay_out(encoded, 0)?; // the hours are the same on every route
    let n = layout.sizes.processors;
    let b = processor as usize;
    if hours.len() != WINDOW_WORDS * n {
        return Err(Refusal::Area);
    }
    if inner::faulty(hours, n, minute) {
        return Err(Refusal::Hours);
    }
    if b >= n {
        return Err(Refusal::NoSuch);
    }
    Ok(minutes(hours, b, minute))
}
