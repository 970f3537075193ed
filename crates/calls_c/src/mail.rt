// The calls of crates/calls/src/mail.rt with C linkage, each with the clauses that it has there. tools/exports.py writes this file.
ghost use Rattle.packets.specs.Cut.{chunk_of};
ghost use Rattle.wire.specs.Wire.{label, inbox_of};
ghost use Rattle.calls.specs.Gave.{areas_of, FingerprintGave, PacketGave, PacketReadGave, ChunkGave, SendGave, ReceiveGave};

use calls::mail::Fingerprint;
use packets::chunks::Taken;
use records::Progress;
use wire::inbox::Received;
use wire::{PacketLine, Written};

// What a packet names recipe and route by.
#[unsafe(no_mangle)]
pub extern "C" fn rolwyddac_fingerprint(encoded: &[u8], route: u32) -> Fingerprint
    ensures { FingerprintGave encoded.now route result }
{
    calls::mail::rolwyddac_fingerprint(encoded, route)
}

// A chunk of an item's words as a packet.
#[unsafe(no_mangle)]
pub extern "C" fn rolwyddac_packet(
    fingerprint: u64,
    run: u64,
    life: u64,
    kind: u32,
    sender: u32,
    taker: u32,
    item: u32,
    chunk: u32,
    words: &[u32],
    space: &mut [u8],
) -> Written
    ensures { PacketGave (label fingerprint run life kind sender taker item) words.now chunk space.old
        result space.new }
{
    calls::mail::rolwyddac_packet(
        fingerprint,
        run,
        life,
        kind,
        sender,
        taker,
        item,
        chunk,
        words,
        space,
    )
}

// What bytes say that came.
#[unsafe(no_mangle)]
pub extern "C" fn rolwyddac_packet_read(
    fingerprint: u64,
    run: u64,
    packet: &[u8],
    words: &mut [u32],
) -> PacketLine
    ensures { PacketReadGave fingerprint run packet.now words.old result words.new }
{
    calls::mail::rolwyddac_packet_read(fingerprint, run, packet, words)
}

// A chunk as a packet brought it, into the area of its item.
#[unsafe(no_mangle)]
pub extern "C" fn rolwyddac_chunk(
    chunk: u32,
    chunks: u32,
    words: &[u32],
    area: &mut [u32],
    mask: u64,
) -> Taken
    ensures { ChunkGave (chunk_of chunk chunks words.now) area.old mask result area.new }
{
    calls::mail::rolwyddac_chunk(chunk, chunks, words, area, mask)
}

// A chunk of a message that this processor has posted, as a packet: the first time and whenever it is posted again.
#[unsafe(no_mangle)]
pub extern "C" fn rolwyddac_send(
    encoded: &[u8],
    route: u32,
    run: u64,
    life: u64,
    buffer: &[u32],
    status: &[u8],
    processor: u32,
    message: u32,
    chunk: u32,
    space: &mut [u8],
) -> Written
    ensures { SendGave encoded.now route run life buffer.now status.now processor message chunk
        space.old result space.new }
{
    calls::mail::rolwyddac_send(
        encoded, route, run, life, buffer, status, processor, message, chunk, space,
    )
}

// Bytes as they came for a processor: a chunk to what came of its message, and the message taken in once it is whole.
#[unsafe(no_mangle)]
pub extern "C" fn rolwyddac_receive(
    encoded: &[u8],
    route: u32,
    run: u64,
    source: &[u32],
    memories: &[u32],
    buffer: &mut [u32],
    progress: &[Progress],
    status: &mut [u8],
    processor: u32,
    packet: &[u8],
    parts: &mut [u32],
    masks: &mut [u64],
) -> Received
    ensures { ReceiveGave encoded.now route run source.now
        (areas_of memories.now buffer.old progress.now status.old) processor packet.now
        (inbox_of parts.old masks.old)
        result (inbox_of parts.new masks.new)
        (areas_of memories.now buffer.new progress.now status.new) }
{
    calls::mail::rolwyddac_receive(
        encoded, route, run, source, memories, buffer, progress, status, processor, packet, parts,
        masks,
    )
}
