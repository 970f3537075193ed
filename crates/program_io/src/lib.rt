// Small things that the programs share: input read whole, and faults told on standard error.
#![tactic(auto)]

ghost use Rattle.std.specs.Prelude.{◌≡◌, ◌+◌, ◌<◌, ◌≤◌, length, IfOk};
ghost use Rattle.program_io.specs.Bytes.{word_in};
ghost use Rattle.program_io.specs.Counts.{IsPrefixLen};

use base::refusal::Refusal;
use std::env::FillError;
use std::io;
use std::io::Read;
use std::rt::Env;

// ---- numbers and front parts

// How many of the first n words there are: what `&words[..r]` asks.
pub fn front(words: &[u32], n: usize) -> usize
    ensures { IsPrefixLen result words.now }
{
    n.min(words.len())
}

// The same of bytes.
pub fn front_bytes(bytes: &[u8], n: usize) -> usize
    ensures { IsPrefixLen result bytes.now }
{
    n.min(bytes.len())
}

pub fn as_index(x: u32) -> usize
    ensures { (result ≡ x) × (result < 4294967296) }
{
    x as usize
}

pub fn of_byte(x: u8) -> u32
    ensures { result < 256 }
{
    u32::from(x)
}

// The number in two bytes, the low one first; 0 where there are fewer.
pub fn half(bytes: &[u8]) -> usize
    ensures { result < 65536 }
{
    if bytes.len() < 2 {
        return 0;
    }
    base::half_at(bytes, 0)
}

// The number in four bytes of a record of 16, from byte at on; 0 where they are not in it.
pub fn word(bytes: &[u8], at: usize) -> u32
    ensures { result ≡ word_in bytes.now at }
{
    if at > 12 {
        return 0;
    }
    if bytes.len() < 16 {
        return 0;
    }
    base::word_at(bytes, at)
}

// ---- faults, told on standard error: what is written to standard output does not depend on them

// A byte of the input, put at a place of the space: 1, 0 at the input's end, an error where it can't be read.
fn read_byte(input: &mut impl Read, space: &mut [u8], at: usize) -> io::Result<usize>
    requires { at < length space.old }
    ensures { length space.new ≡ length space.old }
{
    let mut byte = [0u8; 1];
    let got = input.read(&mut byte)?;
    space[at] = byte[0];
    Ok(got)
}

// Standard input, as far as the space goes: how many bytes came. Each read is looked at, so that a part is never taken for the whole: an
// input that can't be read is told, and counts as empty.
pub fn read_input(rt: &(impl Input + Eprint + Alloc), space: &mut [u8]) -> usize
    ensures { IsPrefixLen result space.new }
{
    let mut input = rt.reader();
    for n in 0..space.len() {
        match read_byte(&mut input, space, n) {
            Ok(0) => return n,
            Ok(_) => {}
            Err(e) => {
                fail(rt, "standard input", e);
                return 0;
            }
        }
    }
    space.len()
}

// One read of a file into the space from byte at on: how many bytes came, 0 at the file's end.
fn read_more(file: &mut impl Read, space: &mut [u8], at: usize) -> io::Result<usize>
    requires { at ≤ length space.old }
    ensures kept { length space.new ≡ length space.old }
    ensures room { IfOk result (λ got. at + got ≤ length space.old) }
{
    file.read(&mut space[at..])
}

// A file, as far as the space goes: how many bytes came up to its end, or up to a read that fails.
pub fn read_full(file: &mut impl Read, space: &mut [u8]) -> usize
    ensures { IsPrefixLen result space.new }
{
    let mut n: usize = 0;
    // each step is as long as what the read gave
    while n < space.len() {
        match read_more(file, space, n) {
            Ok(0) => break,
            Ok(got) => n += got,
            Err(_) => break,
        }
    }
    n
}

// What can't be told is left untold: what a program writes on standard output does not depend on it.
fn tell(rt: &impl Eprint, line: &str) {
    let _ = rt.eprint(line);
}

// The system's words, without the number that std puts behind them.
fn words_of(told: &str) -> &str {
    match told.split_once(" (os error ") {
        Some((words, _)) => words,
        None => told,
    }
}

// What failed, a colon and the system's words, with std's number where no memory is left to take it off.
pub fn fail(rt: &(impl Eprint + Alloc), what: &str, e: io::Error) {
    let _ = match format!(in rt.alloc(); "{e}") {
        Ok(told) => eprintln!(rt; "{what}: {}", words_of(told.as_str())),
        Err(_) => eprintln!(rt; "{what}: {e}"),
    };
}

// Arguments, where there are any: the programs take none.
pub fn tell_arguments(rt: &(impl Env + Eprint)) {
    let mut first = [0u8; 1];
    if !matches!(rt.arg(1, &mut first), Err(FillError::NotPresent)) {
        tell(
            rt,
            "arguments are not heeded: the recipe is read from standard input\n",
        );
    }
}

// What writing to standard output answered, told where it failed.
pub fn tell_output(rt: &(impl Eprint + Alloc), written: io::Result<()>) {
    if let Err(e) = written {
        fail(rt, "standard output", e);
    }
}

// Number, term and meaning of a line that a recipe is refused by; no other refusal is the reader's.
fn meaning(refusal: Refusal) -> &'static str {
    match refusal {
        Refusal::Ragged =>
            "1, ragged: the recipe is empty, longer than 512 bytes or no multiple of 16 bytes\n",
        Refusal::StrayRecord =>
            "2, stray record: kind, order, count, unnamed byte, shift or bound not as the format has them\n",
        Refusal::Length => "3, length: some length is 0 or above 1,024\n",
        Refusal::TooLarge => "4, too large: more than 16,384 cells\n",
        Refusal::Distance =>
            "5, distance: components all zero, the same as an earlier record's, or not zero beyond the last dimension\n",
        Refusal::Tile =>
            "6, tile: some tile length is 0, above 1,024, or smaller than some distance there\n",
        Refusal::Boards => "7, boards: more than 64 processors\n",
        Refusal::Tiles => "8, tiles: more than 1,024 tiles that hold a cell\n",
        Refusal::SpreadOrder =>
            "16, spread order: the first dimension is not spread, or a spread one follows one that is not\n",
        Refusal::LastSpread => "17, last spread: the last dimension is spread\n",
        Refusal::TooWide => "18, too wide: all components of a distance of kind 4 fit a byte\n",
        Refusal::Empty => "20, empty: no cell of the box is in the shape that the bounds leave\n",
        _ => "",
    }
}

// Why a recipe is refused; nothing where it is not. One of more than 512 bytes is ragged to the programs.
pub fn tell_refusal(rt: &impl Eprint, encoded: &[u8]) {
    if encoded.len() > 512 {
        return tell(rt, meaning(Refusal::Ragged));
    }
    if let Err(refusal) = reader::read(encoded) {
        tell(rt, meaning(refusal));
    }
}
