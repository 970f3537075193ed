// Bytes as they came at a message's taker's: each chunk into what came of its message so far, and the message into the taker's own areas once it is whole.
// `receive` is lent the records as words: its contract holds for every list of words that the `Flat` carries.
ghost use Rattle.std.specs.Prelude.{◌≡◌, ℕ, List, length, nat_eq, IfOk};
ghost use Rattle.base.specs.Tests.{◌and◌};
ghost use Rattle.base.specs.Numbers.{first_of};
ghost use Rattle.base.specs.Refusals.{number_of};
ghost use Rattle.machine.specs.Plan.{count, words};
ghost use Rattle.machine.specs.Machine.{State, state_of};
ghost use Rattle.records.specs.Records.{Flattens};
ghost use Rattle.engine.specs.Calls.{answer};
ghost use Rattle.packets.specs.Fingerprint.{fingerprint_of};
ghost use Rattle.packets.specs.Packet.{decode_lines};
ghost use Rattle.wire.specs.Wire.{Inbox, inbox_of, received_as, address_lines, receive_call};
ghost use Rattle.tables.specs.Given.{plan_of_table};
ghost use Rattle.wire.specs.Given.{ReadAs, MayReceive, told_in, taken_or};

use crate::MESSAGE;
use base::refusal::Refusal;
use engine::inner::check_areas;
use packets::chunks::{admit, take_chunk};
use packets::{Header, Reading};
use recipe::lay_out;
use records::Flat;
use summary::line_at;
use tables::{TABLE_WORDS, Table};
use transport::arrivals::receive as receive_whole;

// What became of bytes: a number, 1 where a message is whole with them and was taken in, and the message. An answer to C, and so no Result.
#[repr(C)]
#[derive(Clone, Copy)]
pub struct Received {
    pub number: u32,
    pub whole: u32,
    pub message: u32,
}

// The message that bytes brought a chunk of, and whether it is whole with them and was taken in.
#[derive(Clone, Copy)]
struct Brought {
    whole: bool,
    message: u32,
}

fn for_c(outcome: Result<Brought, Refusal>) -> Received
    ensures { (i : Inbox) → (s : State) → answer result.number (received_as result.whole result.message i s) ≡ told_in outcome i s }
{
    match outcome {
        Ok(brought) => Received {
            number: 0,
            whole: u32::from(brought.whole),
            message: brought.message,
        },
        Err(refusal) => Received {
            number: refusal.number(),
            whole: 0,
            message: 0,
        },
    }
}

// What bytes are for this recipe, route and run.
fn open_packet(
    encoded: &[u8],
    route: u32,
    run: u64,
    packet: &[u8],
    words: &mut [u32],
) -> Result<Reading, Refusal>
    requires { length words.old ≡ 285 }
    ensures number { number_of result ≡ first_of (decode_lines (fingerprint_of encoded.now route) run packet.now) }
    ensures reading { IfOk result (λ r. ReadAs packet.now r words.new) }
{
    let fingerprint = packets::fingerprint(encoded, route);
    packets::read(fingerprint, run, packet, words)
}

// What came so far has the lengths of the buffer and of the status bytes.
fn inbox_fits(table: &Table, parts: usize, masks: usize) -> bool
    ensures { result ≡ (nat_eq parts (words (plan_of_table table.now)) and nat_eq masks (count (plan_of_table table.now))) }
{
    let t = table.totals();
    parts == t.words && masks == t.messages
}

// Whether a packet is a chunk of a message that this processor takes and that did not come before.
fn addressed(
    table: &Table,
    status: &[u8],
    processor: u32,
    header: Header,
    words: &[u32],
) -> Result<(), Refusal>
    requires { length status.now ≡ count (plan_of_table table.now) }
    ensures { number_of result ≡ first_of (address_lines (plan_of_table table.now) status.now processor header words.now) }
{
    if header.kind != MESSAGE {
        return Err(Refusal::NoSuch);
    }
    let m = header.item as usize;
    if m >= status.len() {
        return Err(Refusal::NoSuch);
    }
    let place = table.nth(m);
    let line = line_at(table, place);
    if header.sender != line.from {
        return Err(Refusal::NoSuch);
    }
    if header.taker != line.to {
        return Err(Refusal::NoSuch);
    }
    if line.to != processor {
        return Err(Refusal::NoSuch);
    }
    if admit(header.chunk, header.chunks, words, place.words).is_err() {
        return Err(Refusal::NoSuch);
    }
    if status[m] != 0 {
        return Err(Refusal::NoMail);
    }
    Ok(())
}

// Past the lines before: a chunk to its place, and the message taken in where it is whole.
fn take_packet(
    table: &Table,
    buffer: &mut [u32],
    status: &mut [u8],
    processor: u32,
    header: Header,
    words: &[u32],
    parts: &mut [u32],
    masks: &mut [u64],
) -> Result<Brought, Refusal>
    requires { MayReceive (plan_of_table table.now) buffer.old status.old (inbox_of parts.old masks.old) }
    ensures { (memories records : List ℕ)
        → told_in result (inbox_of parts.new masks.new) (state_of memories buffer.new records status.new)
        ≡ taken_or (plan_of_table table.now) (state_of memories buffer.old records status.old) processor header words.now
        (inbox_of parts.old masks.old) }
{
    addressed(table, status, processor, header, words)?;
    let message = header.item;
    let m = message as usize;
    let place = table.nth(m);
    let at = place.offset;
    let end = at + place.words;
    let taken = take_chunk(
        header.chunk,
        header.chunks,
        words,
        &mut parts[at..end],
        masks[m],
    );
    masks[m] = taken.mask;
    if taken.whole == 0 {
        return Ok(Brought {
            whole: false,
            message,
        });
    }
    receive_whole(table, buffer, status, processor, m, &parts[at..end])?;
    Ok(Brought {
        whole: true,
        message,
    })
}

// Bytes as they came for a processor: its chunk, or the first line that is true.
fn take_in(
    encoded: &[u8],
    route: u32,
    run: u64,
    source: &[u32],
    memories: &[u32],
    buffer: &mut [u32],
    progress: Flat,
    status: &mut [u8],
    processor: u32,
    packet: &[u8],
    parts: &mut [u32],
    masks: &mut [u64],
) -> Result<Brought, Refusal>
    requires { length progress.words ≡ 192 }
    ensures { (records : List ℕ) → Flattens progress records
        → told_in result (inbox_of parts.new masks.new) (state_of memories.now buffer.new records status.new)
        ≡ receive_call encoded.now route run source.now
        (state_of memories.now buffer.old records status.old) processor packet.now
        (inbox_of parts.old masks.old) }
{
    let layout = lay_out(encoded, route)?;
    let mut words = [0u32; 285];
    let reading = open_packet(encoded, route, run, packet, &mut words)?;
    let mut lens = [0; TABLE_WORDS];
    let table = Table::of(layout, &mut lens);
    if !inbox_fits(&table, parts.len(), masks.len()) {
        return Err(Refusal::Area);
    }
    check_areas(&table, source, memories, buffer, progress, status)?;
    let count = reading.count as usize;
    take_packet(
        &table,
        buffer,
        status,
        processor,
        reading.header,
        &words[0..count],
        parts,
        masks,
    )
}

// Bytes as they came for a processor.
pub fn receive(
    encoded: &[u8],
    route: u32,
    run: u64,
    source: &[u32],
    memories: &[u32],
    buffer: &mut [u32],
    progress: Flat,
    status: &mut [u8],
    processor: u32,
    packet: &[u8],
    parts: &mut [u32],
    masks: &mut [u64],
) -> Received
    requires { length progress.words ≡ 192 }
    ensures { (records : List ℕ) → Flattens progress records
        → answer result.number (received_as result.whole result.message (inbox_of parts.new masks.new)
        (state_of memories.now buffer.new records status.new))
        ≡ receive_call encoded.now route run source.now
        (state_of memories.now buffer.old records status.old) processor packet.now
        (inbox_of parts.old masks.old) }
{
    for_c(take_in(
        encoded, route, run, source, memories, buffer, progress, status, processor, packet, parts,
        masks,
    ))
}
