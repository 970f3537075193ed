// Between the areas of a run and the wire: a chunk of an item, or of a message out of its sender's buffer, as a packet; what a packet says; and, in inbox.rt,
// bytes as they came taken in at a message's taker's. specs/Wire.antt says what the calls answer.
#![tactic(auto)]

ghost use Rattle.std.specs.Prelude.{◌≡◌, ℕ, ◌≤◌, List, [], ◌∷◌, length};
ghost use Rattle.base.specs.Numbers.{first_of};
ghost use Rattle.base.specs.Refusals.{number_of};
ghost use Rattle.tables.specs.Given.{plan_of_table};
ghost use Rattle.engine.specs.Calls.{answer};
ghost use Rattle.packets.specs.Packet.{encode_packet};
ghost use Rattle.packets.specs.Calls.{read_call};
ghost use Rattle.wire.specs.Wire.{label, letter, letter_of, packet_call, line_from, send_lines, sent_or, send_call};
ghost use Rattle.wire.specs.Given.{told};

pub mod inbox; // inbox.rt: bytes as they came, at a message's taker's

use base::refusal::Refusal;
use packets::chunks::{MOST_AREA, chunk_length, chunks_of};
use packets::{Header, LONGEST, MOST_WORDS};
use recipe::open;
use summary::line_at;
use tables::{TABLE_WORDS, Table};

pub const MESSAGE: u32 = 1; // a packet's kind

// What was written: a number, and how many bytes the packet has. An answer to C, and so no Result, as the next.
#[repr(C)]
#[derive(Clone, Copy)]
pub struct Written {
    pub number: u32,
    pub length: u32,
}

// What a packet says beside recipe, route and run, which were asked for, and how many words it brings. Zeros at a refusal.
#[repr(C)]
#[derive(Clone, Copy)]
pub struct PacketLine {
    pub number: u32,
    pub kind: u32,
    pub sender: u32,
    pub taker: u32,
    pub item: u32,
    pub chunk: u32,
    pub chunks: u32,
    pub count: u32,
    pub life: u64,
}

// What a packet says of an item, whatever the chunk.
#[derive(Clone, Copy)]
struct Label {
    fingerprint: u64,
    run: u64,
    life: u64,
    kind: u32,
    sender: u32,
    taker: u32,
    item: u32,
}

// ---- any item

fn for_c(outcome: Result<u32, Refusal>) -> Written
    ensures { (space : List ℕ) → answer result.number (letter_of result.length space) ≡ told outcome space }
{
    match outcome {
        Ok(length) => Written { number: 0, length },
        Err(refusal) => Written {
            number: refusal.number(),
            length: 0,
        },
    }
}

// A packet into the first bytes of a space that is long enough for every packet, and how many bytes it has.
fn put_packet(header: Header, words: &[u32], space: &mut [u8]) -> Result<u32, Refusal>
    requires { (length words.now ≤ 285) × (length space.old ≡ 1200) }
    ensures { told result space.new ≡ answer 0 (letter (encode_packet header words.now) space.old) }
{
    let end = 60 + 4 * words.len();
    packets::write(header, words, &mut space[0..end])?;
    Ok(end as u32)
}

// A chunk of an item's words as a packet, and how many bytes it has.
fn write_chunk(about: Label, chunk: u32, words: &[u32], space: &mut [u8]) -> Result<u32, Refusal>
    ensures { told result space.new
        ≡ packet_call (label about.fingerprint about.run about.life about.kind about.sender about.taker about.item) words.now chunk
        space.old }
{
    if space.len() != LONGEST {
        return Err(Refusal::Area);
    }
    let n = words.len();
    if n > MOST_AREA {
        return Err(Refusal::Area);
    }
    let chunks = chunks_of(n);
    if chunk as usize >= chunks {
        return Err(Refusal::NoSuch);
    }
    let at = chunk as usize * MOST_WORDS;
    let end = at + chunk_length(n, chunk);
    let header = Header {
        fingerprint: about.fingerprint,
        run: about.run,
        life: about.life,
        kind: about.kind,
        sender: about.sender,
        taker: about.taker,
        item: about.item,
        chunk,
        chunks: chunks as u32,
    };
    put_packet(header, &words[at..end], space)
}

// The same, for C.
pub fn packet(
    fingerprint: u64,
    run: u64,
    life: u64,
    kind: u32,
    sender: u32,
    taker: u32,
    item: u32,
    chunk: u32,
    words: &[u32],
    space: &mut [u8],
) -> Written
    ensures { answer result.number (letter_of result.length space.new)
        ≡ packet_call (label fingerprint run life kind sender taker item) words.now chunk space.old }
{
    let about = Label {
        fingerprint,
        run,
        life,
        kind,
        sender,
        taker,
        item,
    };
    for_c(write_chunk(about, chunk, words, space))
}

// What bytes say that came, whatever they are; their words are written at 0 alone.
pub fn packet_read(fingerprint: u64, run: u64, packet: &[u8], words: &mut [u32]) -> PacketLine
    ensures { (result ≡ line_from (read_call fingerprint run packet.now words.old))
        × (words.new ≡ (read_call fingerprint run packet.now words.old).words) }
{
    match packets::read(fingerprint, run, packet, words) {
        Ok(reading) => PacketLine {
            number: 0,
            kind: reading.header.kind,
            sender: reading.header.sender,
            taker: reading.header.taker,
            item: reading.header.item,
            chunk: reading.header.chunk,
            chunks: reading.header.chunks,
            count: reading.count,
            life: reading.header.life,
        },
        Err(refusal) => PacketLine {
            number: refusal.number(),
            kind: 0,
            sender: 0,
            taker: 0,
            item: 0,
            chunk: 0,
            chunks: 0,
            count: 0,
            life: 0,
        },
    }
}

// ---- a message

// Whether a chunk can be sent: else the first true line, past the recipe's; of buffer and space the lengths alone.
fn sendable(
    table: &Table,
    buffer: usize,
    status: &[u8],
    processor: u32,
    message: u32,
    chunk: u32,
    space: usize,
) -> Result<(), Refusal>
    ensures { number_of result ≡ first_of (send_lines (plan_of_table table.now) buffer status.now processor message chunk space) }
{
    let t = table.totals();
    if buffer != t.words {
        return Err(Refusal::Area);
    }
    if status.len() != t.messages {
        return Err(Refusal::Area);
    }
    if space != LONGEST {
        return Err(Refusal::Area);
    }
    let m = message as usize;
    if m >= t.messages {
        return Err(Refusal::NoSuch);
    }
    let place = table.nth(m);
    let line = line_at(table, place);
    if line.from != processor {
        return Err(Refusal::NoSuch);
    }
    if chunk as usize >= chunks_of(place.words) {
        return Err(Refusal::NoSuch);
    }
    if status[m] < 2 {
        return Err(Refusal::NoMail);
    }
    Ok(())
}

// Past the recipe's lines.
fn send_message(
    table: &Table,
    fingerprint: u64,
    run: u64,
    life: u64,
    buffer: &[u32],
    status: &[u8],
    processor: u32,
    message: u32,
    chunk: u32,
    space: &mut [u8],
) -> Result<u32, Refusal>
    ensures { told result space.new
        ≡ sent_or (plan_of_table table.now) fingerprint run life buffer.now status.now processor message chunk
        space.old }
{
    sendable(
        table,
        buffer.len(),
        status,
        processor,
        message,
        chunk,
        space.len(),
    )?;
    let place = table.nth(message as usize);
    let line = line_at(table, place);
    let at = place.offset;
    let end = at + place.words;
    let about = Label {
        fingerprint,
        run,
        life,
        kind: MESSAGE,
        sender: line.from,
        taker: line.to,
        item: message,
    };
    write_chunk(about, chunk, &buffer[at..end], space)
}

// The packet, or the first line that is true.
fn send_posted(
    encoded: &[u8],
    route: u32,
    run: u64,
    life: u64,
    buffer: &[u32],
    status: &[u8],
    processor: u32,
    message: u32,
    chunk: u32,
    space: &mut [u8],
) -> Result<u32, Refusal>
    ensures { told result space.new
        ≡ send_call encoded.now route run life buffer.now status.now processor message chunk space.old }
{
    let mut lens = [0; TABLE_WORDS];
    let table = open(encoded, route, &mut lens)?;
    let fingerprint = packets::fingerprint(encoded, route);
    send_message(
        &table,
        fingerprint,
        run,
        life,
        buffer,
        status,
        processor,
        message,
        chunk,
        space,
    )
}

// A chunk of a message that this processor has posted, out of its buffer, as a packet of this run and this life: the first time and whenever it is posted
// again.
pub fn send(
    encoded: &[u8],
    route: u32,
    run: u64,
    life: u64,
    buffer: &[u32],
    status: &[u8],
    processor: u32,
    message: u32,
    chunk: u32,
    space: &mut [u8],
) -> Written
    ensures { answer result.number (letter_of result.length space.new)
        ≡ send_call encoded.now route run life buffer.now status.now processor message chunk space.old }
{
    for_c(send_posted(
        encoded, route, run, life, buffer, status, processor, message, chunk, space,
    ))
}
