// The calls for programs, which keep the records as words, three a processor, each on the route that a word names; and the sweep.
#![tactic(auto)]

ghost use Rattle.std.specs.Prelude.{◌≡◌, ◌+◌, ◌*◌, ◌<◌, length};
ghost use Rattle.machine.specs.Machine.{state_of};
ghost use Rattle.stages.specs.Progress.{set_record};
ghost use Rattle.engine.specs.Calls.{answer, fresh_call, turn_call, deliver_call, collect_call, sweep_call};

pub mod inner; // inner.rt: the calls without the stores into the records

use base::refusal::{Refusal, number_of};
use layout::Layout;
use plan::Route;
use reader::read;
use records::{Progress, flat_of};

// A fresh start.
pub fn fresh(
    encoded: &[u8],
    route: u32,
    source: &[u32],
    memories: &mut [u32],
    buffer: &mut [u32],
    progress: &mut [u32],
    status: &mut [u8],
) -> u32
    ensures { answer result (state_of memories.new buffer.new progress.new status.new)
        ≡ fresh_call encoded.now route source.now
        (state_of memories.old buffer.old progress.old status.old) }
{
    let fresh = inner::fresh(
        encoded,
        route,
        source,
        memories,
        buffer,
        progress.len(),
        status,
    );
    match fresh {
        Ok(()) => progress.fill(0),
        Err(refusal) => return refusal.number(),
    }
    0
}

// The words of a processor's record written.
pub fn store_record(progress: &mut [u32], processor: usize, p: Progress)
    requires { 3 * processor + 2 < length progress.old }
    ensures { progress.new ≡ set_record progress.old processor p }
{
    let at = 3 * processor;
    progress[at] = p.finished;
    progress[at + 1] = p.stage;
    progress[at + 2] = p.sent;
}

// One turn of a processor.
pub fn turn(
    encoded: &[u8],
    route: u32,
    source: &[u32],
    memories: &mut [u32],
    buffer: &mut [u32],
    progress: &mut [u32],
    status: &mut [u8],
    processor: u32,
) -> u32
    ensures { answer result (state_of memories.new buffer.new progress.new status.new)
        ≡ turn_call encoded.now route source.now
        (state_of memories.old buffer.old progress.old status.old) processor }
{
    let turned = inner::turn(
        encoded,
        route,
        source,
        memories,
        buffer,
        flat_of(progress),
        status,
        processor,
    );
    match turned {
        Ok(record) => store_record(progress, processor as usize, record),
        Err(refusal) => return refusal.number(),
    }
    0
}

// The delivery of a message.
pub fn deliver(
    encoded: &[u8],
    route: u32,
    source: &[u32],
    memories: &[u32],
    buffer: &[u32],
    progress: &[u32],
    status: &mut [u8],
    message: u32,
) -> u32
    ensures { answer result (state_of memories.now buffer.now progress.now status.new)
        ≡ deliver_call encoded.now route source.now
        (state_of memories.now buffer.now progress.now status.old) message }
{
    number_of(&inner::deliver(
        encoded,
        route,
        source,
        memories,
        buffer,
        flat_of(progress),
        status,
        message,
    ))
}

// The grid, once all processors have finished.
pub fn collect(
    encoded: &[u8],
    route: u32,
    source: &[u32],
    memories: &[u32],
    buffer: &[u32],
    progress: &[u32],
    status: &[u8],
    grid: &mut [u32],
) -> u32
    ensures { answer result grid.new
        ≡ collect_call encoded.now route source.now
        (state_of memories.now buffer.now progress.now status.now) grid.old }
{
    number_of(&inner::collect(
        encoded,
        route,
        source,
        memories,
        buffer,
        flat_of(progress),
        status,
        grid,
    ))
}

// The sequential sweep of the whole grid, the same on every route.
pub fn sweep(encoded: &[u8], source: &[u32], grid: &mut [u32]) -> u32
    ensures { answer result grid.new ≡ sweep_call encoded.now source.now grid.old }
{
    let nest = match read(encoded) {
        Ok(nest) => nest,
        Err(refusal) => return refusal.number(),
    };
    let layout = Layout::of(nest, Route::Direct);
    if source.len() != layout.sizes.cells {
        return Refusal::Area.number();
    }
    if grid.len() != layout.sizes.cells {
        return Refusal::Area.number();
    }
    if layout.nest.bounds == 0 {
        values::sweep(&layout, source, grid);
        return 0;
    }
    values::shaped_values::sweep(&layout, source, grid);
    0
}
