// Carries out the file `script`, records of 16 bytes, on areas of its own: each call's number is printed with a checksum of every
// word that was lent. tools/README.md has the format.
ghost use Rattle.std.specs.Prelude.{◌≤◌};

use crate::recipes::print_head;
use records::RECORD_WORDS;
use std::io::Read;
use std::rt::Files;
use std::{fs, io};

// ---- records

// The rule by which an area is filled: each word the same, one more than the last, drawn, or two bits of what is drawn.
#[derive(Clone, Copy)]
enum Rule {
    Same,
    Rising,
    Drawn,
    TwoBits,
}

impl Rule {
    fn of(byte: u8) -> Rule {
        match byte {
            0 => Rule::Same,
            1 => Rule::Rising,
            3 => Rule::TwoBits,
            _ => Rule::Drawn,
        }
    }

    // The generator's next value.
    fn next(self, x: u32) -> u32 {
        match self {
            Rule::Same => x,
            Rule::Rising => x.wrapping_add(1),
            Rule::Drawn | Rule::TwoBits => x.wrapping_mul(1664525).wrapping_add(1013904223),
        }
    }

    // The word made of it.
    fn word(self, x: u32) -> u32 {
        match self {
            Rule::TwoBits => x >> 30,
            _ => x,
        }
    }
}

// What is done with the lent words of an area.
#[derive(Clone, Copy)]
enum Change {
    Fill(Rule, u32),
    Poke(u32, u32),
    Show,
}

#[derive(Clone, Copy)]
enum Call {
    Fresh,
    Turn(u32),
    Deliver(u32),
    Collect,
    Sweep,
}

// What a record asks for.
#[derive(Clone, Copy)]
enum Action {
    Begin(u32),
    Recipe(u32),
    Lend(u8, u32),
    Route(u32),
    Change(u8, Change),
    Call(Call),
}

// A record: what to do, on which area, by which rule, a byte that is not heeded, and two words.
fn action_of(record: &[u8; 16]) -> Action {
    let area = record[1];
    let a = base::word_at(record, 4);
    let b = base::word_at(record, 8);
    match record[0] {
        1 => Action::Begin(a),
        2 => Action::Recipe(a),
        3 => Action::Lend(area, a),
        4 => Action::Change(area, Change::Fill(Rule::of(record[2]), a)),
        5 => Action::Change(area, Change::Poke(a, b)),
        6 => Action::Call(Call::Fresh),
        7 => Action::Call(Call::Turn(a)),
        8 => Action::Call(Call::Deliver(a)),
        9 => Action::Call(Call::Collect),
        11 => Action::Change(area, Change::Show),
        12 => Action::Route(a),
        _ => Action::Call(Call::Sweep),
    }
}

// ---- an area's words

// How much of an area of `len` words is lent, by the number that the script has.
fn front(lent: u32, len: usize) -> usize
    ensures { result ≤ len }
{
    (lent as usize).min(len)
}

fn fill(words: &mut [u32], rule: Rule, start: u32) {
    let mut x = start;
    for word in words.iter_mut() {
        x = rule.next(x);
        *word = rule.word(x);
    }
}

fn show(rt: &impl Print, words: &[u32]) -> io::Result<()> {
    for word in words {
        print!(rt; "{word} ")?;
    }
    println!(rt)
}

fn apply(rt: &impl Print, area: &mut [u32], lent: u32, change: Change) -> io::Result<()> {
    let n = front(lent, area.len());
    let words = &mut area[..n];
    match change {
        Change::Fill(rule, start) => fill(words, rule, start),
        Change::Poke(at, word) => {
            if let Some(place) = words.get_mut(at as usize) {
                *place = word;
            }
        }
        Change::Show => show(rt, words)?,
    }
    Ok(())
}

// ---- checksum

fn fold(h: u32, x: u32) -> u32 {
    h.wrapping_mul(16777619).wrapping_add(x)
}

// An area's length as lent, then its words.
fn fold_words(h: u32, words: &[u32], lent: u32) -> u32 {
    let n = front(lent, words.len());
    words[..n].iter().fold(fold(h, lent), |h, x| fold(h, *x))
}

// ---- the areas

// How much of each area is lent, the recipe's in bytes; and the route of calls.
#[derive(Clone, Copy)]
struct Lent {
    recipe: u32,
    source: u32,
    memories: u32,
    buffer: u32,
    progress: u32,
    status: u32,
    grid: u32,
    route: u32,
}

impl Lent {
    fn nothing() -> Lent {
        Lent {
            recipe: 0,
            source: 0,
            memories: 0,
            buffer: 0,
            progress: 0,
            status: 0,
            grid: 0,
            route: 0,
        }
    }

    fn set(&mut self, area: u8, words: u32) {
        match area {
            0 => self.recipe = words,
            1 => self.source = words,
            2 => self.memories = words,
            3 => self.buffer = words,
            4 => self.progress = words,
            5 => self.status = words,
            6 => self.grid = words,
            7 => self.route = words,
            _ => {}
        }
    }
}

#[derive(Drop)]
struct Areas {
    recipe: [u8; 512],
    source: [u32; 1024],
    memories: [u32; 4096],
    buffer: [u32; 7168],
    progress: [u32; RECORD_WORDS],
    status: [u8; 7168],
    grid: [u32; 1024],
    lent: Lent,
}

impl Areas {
    // Over all words lent, area by area.
    fn checksum(&self) -> u32 {
        let lent = self.lent;
        let h = fold_words(2166136261, &self.source, lent.source);
        let h = fold_words(h, &self.memories, lent.memories);
        let h = fold_words(h, &self.buffer, lent.buffer);
        let h = fold_words(h, &self.progress, lent.progress);
        let h = fold_words(h, &self.status.map(u32::from), lent.status);
        fold_words(h, &self.grid, lent.grid)
    }

    fn change(&mut self, rt: &impl Print, area: u8, what: Change) -> io::Result<()> {
        let lent = self.lent;
        match area {
            1 => apply(rt, &mut self.source, lent.source, what),
            2 => apply(rt, &mut self.memories, lent.memories, what),
            3 => apply(rt, &mut self.buffer, lent.buffer, what),
            4 => apply(rt, &mut self.progress, lent.progress, what),
            5 => {
                let mut words = self.status.map(u32::from);
                apply(rt, &mut words, lent.status, what)?;
                self.status = words.map(|word| (word % 256) as u8);
                Ok(())
            }
            _ => apply(rt, &mut self.grid, lent.grid, what),
        }
    }

    // A call's number, on the parts that are lent.
    fn answer(&mut self, call: Call) -> u32 {
        let lent = self.lent;
        let route = lent.route;
        let encoded = &self.recipe[..front(lent.recipe, 512)];
        let source = &self.source[..front(lent.source, 1024)];
        let memories = &mut self.memories[..];
        let memories = &mut memories[..front(lent.memories, 4096)];
        let buffer = &mut self.buffer[..];
        let buffer = &mut buffer[..front(lent.buffer, 7168)];
        let progress = &mut self.progress[..];
        let progress = &mut progress[..front(lent.progress, RECORD_WORDS)];
        let status = &mut self.status[..];
        let status = &mut status[..front(lent.status, 7168)];
        let grid = &mut self.grid[..];
        let grid = &mut grid[..front(lent.grid, 1024)];
        match call {
            Call::Fresh => engine::fresh(
                encoded, route, source, memories, buffer, progress, status,
            ),
            Call::Turn(processor) => engine::turn(
                encoded, route, source, memories, buffer, progress, status, processor,
            ),
            Call::Deliver(message) => engine::deliver(
                encoded, route, source, memories, buffer, progress, status, message,
            ),
            Call::Collect => engine::collect(
                encoded, route, source, memories, buffer, progress, status, grid,
            ),
            Call::Sweep => engine::sweep(encoded, source, grid),
        }
    }

    // A call, and the line that tells of it.
    fn call(&mut self, rt: &impl Print, call: Call) -> io::Result<()> {
        let number = self.answer(call);
        let sum = self.checksum();
        println!(rt; "{number} {sum:08x}")
    }

    // The recipe's bytes follow the record, filled up to whole records.
    fn read_recipe(&mut self, file: &mut impl Read, length: u32) {
        self.lent.recipe = length;
        let padded = (length as usize).next_multiple_of(16).min(512);
        program_io::read_full(file, &mut self.recipe[..padded]);
    }

    fn carry_out(
        &mut self,
        rt: &impl Print,
        file: &mut impl Read,
        action: Action,
    ) -> io::Result<()> {
        match action {
            Action::Begin(number) => {
                self.lent = Lent::nothing();
                print_head(rt, u64::from(number))?;
            }
            Action::Recipe(length) => self.read_recipe(file, length),
            Action::Lend(area, words) => self.lent.set(area, words),
            Action::Route(route) => self.lent.route = route,
            Action::Change(area, what) => self.change(rt, area, what)?,
            Action::Call(call) => self.call(rt, call)?,
        }
        Ok(())
    }
}

// The script's records one by one, on areas of its own. Nothing says that a file ends, so the records are counted, up to a number that
// no file has.
fn run(rt: &impl Print, file: &mut impl Read) -> io::Result<()> {
    let mut areas = Areas {
        recipe: [0; 512],
        source: [0; 1024],
        memories: [0; 4096],
        buffer: [0; 7168],
        progress: [0; RECORD_WORDS],
        status: [0; 7168],
        grid: [0; 1024],
        lent: Lent::nothing(),
    };
    let mut record = [0u8; 16];
    for _ in 0..u64::MAX {
        if program_io::read_full(file, &mut record) != 16 {
            break;
        }
        areas.carry_out(rt, file, action_of(&record))?;
    }
    Ok(())
}

// The whole file.
pub fn run_file(rt: &(impl Files + Print + Eprint + Alloc), path: &str) -> io::Result<()> {
    match fs::open(rt, path) {
        Ok(mut file) => run(rt, &mut file),
        Err(e) => {
            program_io::fail(rt, path, e);
            Ok(())
        }
    }
}
