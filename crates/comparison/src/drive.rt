// Drives a run on the direct route to its end by the offered calls: the processors take turns in rising or in falling order; when no
// turn can be taken, each message in flight is delivered; until nothing can be done.
ghost use Rattle.std.specs.Prelude.{◌≡◌, get_or, eqb};
ghost use Rattle.base.specs.Tests.{◌or◌};
ghost use Rattle.machine.specs.Machine.{state_of};
ghost use Rattle.engine.specs.Calls.{deliver_call};
ghost use Rattle.engine.specs.Demands.{calls};
ghost use Rattle.comparison.specs.drive.Drive.{in_order, turns_to, deliveries_to, round_of, Tried, Delivered, Driven};

// How many processors and messages there are, and in which order the processors take turns.
#[derive(Clone, Copy)]
pub struct Order {
    pub processors: u32,
    pub messages: u32,
    pub falling: bool,
}

// The processor that takes the turn of this place in the order.
fn in_order(place: u32, processors: u32, falling: bool) -> u32
    ensures { result ≡ in_order processors falling place }
{
    if falling && place < processors {
        processors - 1 - place
    } else {
        place
    }
}

// Something was done before, or is done now.
fn noted(before: bool, done: bool) -> bool
    ensures { result ≡ (before or done) }
{
    before || done
}

// One turn of each processor, in the order: whether one of them was taken.
fn turn_each(
    encoded: &[u8],
    source: &[u32],
    memories: &mut [u32],
    buffer: &mut [u32],
    progress: &mut [u32],
    status: &mut [u8],
    processors: u32,
    falling: bool,
) -> bool
    ensures { Tried (calls encoded.now 0 source.now)
        (state_of memories.old buffer.old progress.old status.old)
        (turns_to processors falling processors) result
        (state_of memories.new buffer.new progress.new status.new) }
{
    let mut taken = false;
    for place in 0..processors {
        let processor = in_order(place, processors, falling);
        let answer = engine::turn(
            encoded, 0, source, memories, buffer, progress, status, processor,
        );
        taken = noted(taken, answer == 0);
    }
    taken
}

// The message is in flight.
fn in_flight(status: &[u8], message: u32) -> bool
    ensures { result ≡ eqb (get_or status.now message 0) 1 }
{
    status.get(message as usize) == Some(&1)
}

// The delivery of a message in flight: whether it was done.
fn deliver_one(
    encoded: &[u8],
    source: &[u32],
    memories: &[u32],
    buffer: &[u32],
    progress: &[u32],
    status: &mut [u8],
    message: u32,
) -> bool
    ensures { Delivered (deliver_call encoded.now 0 source.now
        (state_of memories.now buffer.now progress.now status.old) message) result
        (state_of memories.now buffer.now progress.now status.new) }
{
    in_flight(status, message)
        && engine::deliver(
            encoded, 0, source, memories, buffer, progress, status, message,
        ) == 0
}

// Each message in flight is delivered: whether one was.
fn deliver_each(
    encoded: &[u8],
    source: &[u32],
    memories: &[u32],
    buffer: &[u32],
    progress: &[u32],
    status: &mut [u8],
    messages: u32,
) -> bool
    ensures { Tried (calls encoded.now 0 source.now)
        (state_of memories.now buffer.now progress.now status.old) (deliveries_to messages) result
        (state_of memories.now buffer.now progress.now status.new) }
{
    let mut delivered = false;
    for message in 0..messages {
        let done = deliver_one(encoded, source, memories, buffer, progress, status, message);
        delivered = noted(delivered, done);
    }
    delivered
}

// One round: whether anything was done.
fn round(
    encoded: &[u8],
    source: &[u32],
    memories: &mut [u32],
    buffer: &mut [u32],
    progress: &mut [u32],
    status: &mut [u8],
    order: Order,
) -> bool
    ensures { Tried (calls encoded.now 0 source.now)
        (state_of memories.old buffer.old progress.old status.old)
        (round_of (calls encoded.now 0 source.now) order
        (state_of memories.old buffer.old progress.old status.old)) result
        (state_of memories.new buffer.new progress.new status.new) }
{
    turn_each(
        encoded,
        source,
        memories,
        buffer,
        progress,
        status,
        order.processors,
        order.falling,
    ) || deliver_each(
        encoded,
        source,
        memories,
        buffer,
        progress,
        status,
        order.messages,
    )
}

// Rounds until one does nothing. Each that does something takes a step or more, so there are at most as many as the run has steps.
pub fn drive(
    encoded: &[u8],
    source: &[u32],
    memories: &mut [u32],
    buffer: &mut [u32],
    progress: &mut [u32],
    status: &mut [u8],
    order: Order,
    steps: u32,
)
    ensures { Driven encoded.now source.now order steps
        (state_of memories.old buffer.old progress.old status.old)
        (state_of memories.new buffer.new progress.new status.new) }
{
    // named, since the invariant speaks of it
    for _done in 0..steps {
        if !round(encoded, source, memories, buffer, progress, status, order) {
            break;
        }
    }
}
