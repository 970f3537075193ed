// Packets: the bytes of one datagram made of words, and what is accepted of the bytes that come. specs/Packet.antt has the format, specs/Crc.antt
// the check word, specs/Fingerprint.antt what recipe and route are known by, specs/Calls.antt what the calls answer, specs/Laws.antt what is proved.
#![tactic(auto)]

ghost use Rattle.std.specs.Prelude.{◌≡◌, ◌++◌, ◌+◌, ◌*◌, ◌/◌, ◌%◌, ◌^◌, ◌≤◌, length, drop, IfOk};
ghost use Rattle.base.specs.Tests.{tabulate};
ghost use Rattle.base.specs.Numbers.{first_of};
ghost use Rattle.base.specs.Refusals.{number_of};
ghost use Rattle.packets.specs.Crc.{crc32};
ghost use Rattle.packets.specs.Fingerprint.{fingerprint_of};
ghost use Rattle.packets.specs.Packet.{word_bytes, words_bytes, head_words, word_at, double_at, count_of, header_of, unfit, damaged, stale};
ghost use Rattle.packets.specs.Calls.{Put, written_of, write_call, read_of, read_lines, read_call};

pub mod chunks; // chunks.rt: a message in several packets
pub mod hash; // hash.rt: FNV-1a
pub mod crc_table; // crc_table.rt: CRC-32's register after bytes, by table

use base::refusal::Refusal;
use base::word_at;

// What a packet says of the words that it brings.
#[derive(Clone, Copy)]
pub struct Header {
    pub fingerprint: u64,
    pub run: u64,
    pub life: u64,
    pub kind: u32,
    pub sender: u32,
    pub taker: u32,
    pub item: u32,
    pub chunk: u32,
    pub chunks: u32,
}

// A packet's header, and how many words it brings.
#[derive(Clone, Copy)]
pub struct Reading {
    pub header: Header,
    pub count: u32,
}

const MAGIC: u32 = 0x31505752; // the bytes "RWP1"

pub const MOST_WORDS: usize = 285; // of one packet, so that 32 bytes of 1,232 are left for a key's tag behind it

pub const LONGEST: usize = 1200; // bytes of a packet with so many words

const WORDS_AT: usize = 56; // behind fourteen header words

const COUNT_AT: usize = 52;

// ---- what tells bytes apart

pub fn crc(bytes: &[u8]) -> u32
    ensures { result ≡ crc32 bytes.now }
{
    crc_table::fed(0xFFFF_FFFF, bytes) ^ 0xFFFF_FFFF
}

// Of a recipe's bytes on a route.
pub fn fingerprint(recipe: &[u8], route: u32) -> u64
    ensures { result ≡ fingerprint_of recipe.now route }
{
    let mut last = [0u8; 4];
    put_word(&mut last, 0, route);
    let check = crc_table::fed(crc_table::fed(0xFFFF_FFFF, recipe), &last) ^ 0xFFFF_FFFF;
    let mix = hash::mixed(hash::mixed(0x811C_9DC5, recipe), &last);
    double(check, mix)
}

// ---- a double word is two words, the low one first

fn double(low: u32, high: u32) -> u64
    ensures { result ≡ low + 2 ^ 32 * high }
{
    u64::from(low) + (u64::from(high) << 32)
}

fn low_word(x: u64) -> u32
    ensures { result ≡ x % 2 ^ 32 }
{
    (x & 0xFFFF_FFFF) as u32
}

fn high_word(x: u64) -> u32
    ensures { result ≡ x / 2 ^ 32 }
{
    (x >> 32) as u32
}

// ---- writing

fn put_word(space: &mut [u8], at: usize, word: u32)
    requires { at + 4 ≤ length space.old }
    ensures { Put space.old at (word_bytes word) space.new }
{
    space[at..at + 4].copy_from_slice(&word.to_le_bytes());
}

fn put_words(space: &mut [u8], at: usize, words: &[u32])
    requires { at + 4 * length words.now ≤ length space.old }
    ensures { Put space.old at (words_bytes words.now) space.new }
{
    for (i, &word) in words.iter().enumerate() {
        put_word(space, at + 4 * i, word);
    }
}

fn put_header(space: &mut [u8], header: Header, count: u32)
    requires { 56 ≤ length space.old }
    ensures { Put space.old 0 (words_bytes (head_words header count)) space.new }
{
    let words = [
        MAGIC,
        low_word(header.fingerprint),
        high_word(header.fingerprint),
        low_word(header.run),
        high_word(header.run),
        low_word(header.life),
        high_word(header.life),
        header.kind,
        header.sender,
        header.taker,
        header.item,
        header.chunk,
        header.chunks,
        count,
    ];
    put_words(space, 0, &words);
}

fn is_unfit(count: usize, length: usize) -> bool
    ensures { result ≡ unfit count length }
{
    count > MOST_WORDS || length != WORDS_AT + 4 * count + 4
}

// A packet into a space of exactly its length, four bytes for each word and 60. Else 9, as where there are too many words, and nothing is written.
pub fn write(header: Header, words: &[u32], space: &mut [u8]) -> Result<(), Refusal>
    ensures { written_of (number_of result) space.new ≡ write_call header words.now space.old }
{
    let count = words.len();
    if is_unfit(count, space.len()) {
        return Err(Refusal::Area);
    }
    put_header(space, header, count as u32);
    put_words(space, WORDS_AT, words);
    let end = WORDS_AT + 4 * count;
    let check = crc(&space[..end]);
    put_word(space, end, check);
    Ok(())
}

// ---- reading

fn double_at(packet: &[u8], at: usize) -> u64
    requires { 4 * at + 8 ≤ length packet.now }
    ensures { result ≡ double_at packet.now at }
{
    let low = word_at(packet, 4 * at);
    let high = word_at(packet, 4 * at + 4);
    double(low, high)
}

fn header_of(packet: &[u8]) -> Header
    requires { 60 ≤ length packet.now }
    ensures { result ≡ header_of packet.now }
{
    Header {
        fingerprint: double_at(packet, 1),
        run: double_at(packet, 3),
        life: double_at(packet, 5),
        kind: word_at(packet, 28),
        sender: word_at(packet, 32),
        taker: word_at(packet, 36),
        item: word_at(packet, 40),
        chunk: word_at(packet, 44),
        chunks: word_at(packet, 48),
    }
}

fn is_damaged(packet: &[u8]) -> bool
    ensures { result ≡ damaged packet.now }
{
    let length = packet.len();
    if length < 60 {
        return true;
    }
    let count = word_at(packet, COUNT_AT) as usize;
    if is_unfit(count, length) {
        return true;
    }
    let end = WORDS_AT + 4 * count;
    word_at(packet, 0) != MAGIC || word_at(packet, end) != crc(&packet[..end])
}

fn is_stale(packet: &[u8], fingerprint: u64, run: u64) -> bool
    requires { 60 ≤ length packet.now }
    ensures { result ≡ stale fingerprint run packet.now }
{
    double_at(packet, 1) != fingerprint || double_at(packet, 3) != run
}

// How many words a packet brings, or the first true line, with space for so many words.
fn readable(fingerprint: u64, run: u64, packet: &[u8], room: usize) -> Result<u32, Refusal>
    ensures number { number_of result ≡ first_of (read_lines fingerprint run packet.now room) }
    ensures count { IfOk result (λ n. n ≡ count_of packet.now) }
{
    if is_damaged(packet) {
        return Err(Refusal::Damaged);
    }
    if is_stale(packet, fingerprint, run) {
        return Err(Refusal::Stale);
    }
    let count = word_at(packet, COUNT_AT);
    if room < count as usize {
        return Err(Refusal::Area);
    }
    Ok(count)
}

fn take_words(packet: &[u8], count: usize, words: &mut [u32])
    requires { (4 * (15 + count) ≤ length packet.now) × (count ≤ length words.old) }
    ensures { words.new ≡ tabulate (λ i. word_at packet.now (14 + i)) count ++ drop count words.old }
{
    for i in 0..count {
        words[i] = word_at(packet, WORDS_AT + 4 * i);
    }
}

// Bytes as they came: 26 where they are damaged, 27 where they are of another recipe, route or run, 9 where their words are more than there is space for.
// Where they are read the words are written, from the first place on.
pub fn read(
    fingerprint: u64,
    run: u64,
    packet: &[u8],
    words: &mut [u32],
) -> Result<Reading, Refusal>
    ensures { read_of result words.new ≡ read_call fingerprint run packet.now words.old }
{
    let count = readable(fingerprint, run, packet, words.len())?;
    take_words(packet, count as usize, words);
    let header = header_of(packet);
    Ok(Reading { header, count })
}
