// The calls that a transport needs with C linkage, where processors share no memory: all messages, the processor of each cell; over progress
// records as structs what a processor waits for, and taking a message in.
ghost use Rattle.calls.specs.Gave.{areas_of, MessagesGave, OwnersGave, AwaitedGave, TakeInGave};

use base::refusal::number_of;
use records::Progress;
use transport::Waiting;

// All messages of the route, six words each: sending tile, taking tile, sending processor, taking processor, words, their place in the buffer.
#[unsafe(no_mangle)]
pub extern "C" fn rolwyddac_messages(encoded: &[u8], route: u32, out: &mut [u32]) -> u32
    ensures { MessagesGave encoded.now route out.old result out.new }
{
    transport::messages(encoded, route, out)
}

// The processor of each cell, the number of processors for one outside the shape.
#[unsafe(no_mangle)]
pub extern "C" fn rolwyddac_owners(encoded: &[u8], out: &mut [u32]) -> u32
    ensures { OwnersGave encoded.now out.old result out.new }
{
    transport::owners(encoded, out)
}

// What a processor waits for: a mark for each message, and its tile.
#[unsafe(no_mangle)]
pub extern "C" fn rolwyddac_awaited(
    encoded: &[u8],
    route: u32,
    progress: &[Progress],
    status: &[u8],
    processor: u32,
    marks: &mut [u8],
) -> Waiting
    ensures { AwaitedGave encoded.now route progress.now status.now processor
        marks.old result marks.new }
{
    let flat = records::flatten(progress);
    transport::inner::awaited(encoded, route, flat, status, processor, marks)
}

// A message taken in at its taker's: its words into their place, and its status from 0 to 2.
#[unsafe(no_mangle)]
pub extern "C" fn rolwyddac_take_in(
    encoded: &[u8],
    route: u32,
    source: &[u32],
    memories: &[u32],
    buffer: &mut [u32],
    progress: &[Progress],
    status: &mut [u8],
    processor: u32,
    message: u32,
    words: &[u32],
) -> u32
    ensures { TakeInGave encoded.now route source.now
        (areas_of memories.now buffer.old progress.now status.old) processor message words.now
        result (areas_of memories.now buffer.new progress.now status.new) }
{
    let flat = records::flatten(progress);
    number_of(&transport::inner::take_in(
        encoded, route, source, memories, buffer, flat, status, processor, message, words,
    ))
}
