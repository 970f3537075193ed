// The work of the calls, past their first lines; and those that are lent records, which are read as words: their contracts hold for every
// list of words that the `Flat` carries, since code has no other way to name the caller's records.
ghost use Rattle.std.specs.Prelude.{◌≡◌, ℕ, ◌*◌, ◌<◌, ◌≤◌, List, [], ◌∷◌, length, replicate, OnOk};
ghost use Rattle.base.specs.Tests.{pick, tabulate};
ghost use Rattle.base.specs.Numbers.{line, first_of};
ghost use Rattle.base.specs.Refusals.{number_of};
ghost use Rattle.base.specs.Lists.{put};
ghost use Rattle.machine.specs.Plan.{count};
ghost use Rattle.machine.specs.Machine.{state_of};
ghost use Rattle.nest.specs.Nest.{cells, processors};
ghost use Rattle.nest.specs.Spans.{within};
ghost use Rattle.plan.specs.declared.Route.TheVariants.{Direct};
ghost use Rattle.plan.specs.Shaped.{plan_of};
ghost use Rattle.tables.specs.Tables.{FoundIn};
ghost use Rattle.tables.specs.Given.{plan_of_table};
ghost use Rattle.records.specs.Records.{Flattens};
ghost use Rattle.engine.specs.Calls.{answer};
ghost use Rattle.network.specs.Brought.{as_long};
ghost use Rattle.transport.specs.Calls.{row_of, rows_to, owner_of, waits_of, awaited_call, take_in_call};
ghost use Rattle.transport.specs.Given.{undelivered, unasked_lines, MayAsk, told, waited_or13};

use crate::Waiting;
use crate::arrivals::receive;
use base::refusal::Refusal;
use layout::Layout;
use nest::Interval;
use recipe::open;
use records::Flat;
use stages::{fit_records, fit_status};
use summary::MessageLine;
use tables::scans::MessageSlot;
use tables::{TABLE_WORDS, Table};

// ---- all messages

// A row's words: a message's line, and where its words begin in the buffer.
fn store_row(row: &mut [u32], line: MessageLine, offset: u32)
    requires { length row.old ≡ 6 }
    ensures { row.new ≡ line.sender ∷ line.taker ∷ line.from ∷ line.to ∷ line.words ∷ offset ∷ [] }
{
    row[0] = line.sender;
    row[1] = line.taker;
    row[2] = line.from;
    row[3] = line.to;
    row[4] = line.words;
    row[5] = offset;
}

// The row of the message found at a place.
fn put_row(table: &Table, place: MessageSlot, out: &mut [u32])
    requires planned { FoundIn table.now.layout.sizes.route table.now.layout.nest place.number place }
    requires out_len { (length out.old ≡ 6 * count (plan_of_table table.now)) × ((place.number ≤ 7168) × (place.offset ≤ 117440512)) }
    ensures { out.new ≡ put out.old (6 * place.number) (row_of (plan_of_table table.now) place.number) }
{
    let line = summary::line_at(table, place);
    let at = 6 * place.number;
    let end = at + 6;
    store_row(&mut out[at..end], line, place.offset as u32);
}

// The rows of all messages: one pass over the table.
pub fn put_rows(table: &Table, out: &mut [u32])
    requires { length out.old ≡ 6 * count (plan_of_table table.now) }
    ensures { out.new ≡ rows_to (plan_of_table table.now) (count (plan_of_table table.now)) }
{
    let slots = table.tiles_of() * table.layout.sizes.ways;
    let mut number = 0;
    let mut offset = 0;
    for slot in 0..slots {
        let words = usize::from(table.lens[slot]);
        if words != 0 {
            let place = MessageSlot {
                slot,
                number,
                offset,
                words,
            };
            put_row(table, place, out);
            number += 1;
        }
        offset += words;
    }
}

// ---- the processor of each cell

// A cell's word: the processor's in the interval, else the other.
fn owner_at(s: Interval, y: usize, processor: u32, none: u32) -> u32
    ensures { result ≡ pick (within s y) processor none }
{
    if s.from <= y && y < s.to {
        processor
    } else {
        none
    }
}

// A row's words.
fn owner_row(row: &mut [u32], s: Interval, processor: u32, none: u32)
    requires { length row.old ≤ 16384 }
    ensures { row.new ≡ tabulate (λ y. pick (within s y) processor none) (length row.old) }
{
    for (y, word) in row.iter_mut().enumerate() {
        *word = owner_at(s, y, processor, none);
    }
}

// Each cell's processor. The last dimension is never spread, so the cells of a row that are in the shape have one.
pub fn put_owners(layout: &Layout, out: &mut [u32])
    requires { length out.old ≡ cells layout.now.nest }
    ensures { out.new ≡ tabulate (owner_of (plan_of Direct layout.now.nest)) (cells layout.now.nest) }
{
    let none = layout.sizes.processors as u32;
    let width = layout.nest.lengths[layout.nest.dimensions - 1];
    let rows = nest::row_count(layout.nest);
    for q in 0..rows {
        let c = q * width;
        let at = nest::row_place(layout.nest, q);
        let own = nest::span(layout.nest, at);
        let tile = layout.tile_of(c);
        let processor = layout.processor_of(tile);
        let end = c + width;
        owner_row(&mut out[c..end], own, processor as u32, none);
    }
}

// ---- what a processor waits for

// Marks the messages due at the tile that are not delivered.
fn mark_undelivered(table: &Table, status: &[u8], tile: usize, marks: &mut [u8])
    requires planned { tile < (plan_of_table table.now).tiles }
    requires status_len { (length status.now ≡ count (plan_of_table table.now)) × (marks.old ≡ replicate (count (plan_of_table table.now)) 0) }
    ensures { marks.new ≡ undelivered (plan_of_table table.now) status.now tile }
{
    let n = table.count_at(tile, 1);
    for j in 0..n {
        let place = table.nth_at(tile, 1, j);
        let number = place.number;
        if status[number] != 2 {
            marks[number] = 1;
        }
    }
}

// The marks and the tile of a processor; 13 where it has no tiles left.
fn tell_awaited(
    table: &Table,
    progress: &[u32],
    status: &[u8],
    b: usize,
    marks: &mut [u8],
) -> Result<u32, Refusal>
    requires may_ask { MayAsk (plan_of_table table.now) (state_of [] [] progress.now status.now) b marks.old }
    ensures { told result marks.new ≡ waited_or13 (plan_of_table table.now) (state_of [] [] progress.now status.now) b marks.old }
{
    let i = progress[3 * b] as usize;
    let stage = progress[3 * b + 1];
    let n = table.tile_count(b);
    if i >= n {
        return Err(Refusal::Finished);
    }
    let tile = table.tile_at(b, i);
    marks.fill(0);
    if stage == 0 {
        mark_undelivered(table, status, tile, marks);
    }
    Ok(tile as u32)
}

// Lines 9 and 10 of asking; `marks` is how many bytes are lent for the answer.
fn check_asking(table: &Table, progress: Flat, status: &[u8], marks: usize) -> Result<(), Refusal>
    requires { length progress.words ≡ 192 }
    ensures lines { (records ms : List ℕ) → Flattens progress records → marks ≡ length ms
        → number_of result ≡ first_of (unasked_lines (plan_of_table table.now) (state_of [] [] records status.now) ms) }
    ensures count { OnOk result (progress.count ≡ 3 * processors table.now.layout.nest) }
{
    let t = table.totals();
    let words = progress.words;
    let count = progress.count;
    if count != 3 * table.layout.sizes.processors {
        return Err(Refusal::Area);
    }
    if status.len() != t.messages {
        return Err(Refusal::Area);
    }
    if marks != t.messages {
        return Err(Refusal::Area);
    }
    if !fit_records(table, &words[0..count]) {
        return Err(Refusal::Unfit);
    }
    if !fit_status(status) {
        return Err(Refusal::Unfit);
    }
    Ok(())
}

// The marks and the tile, or the first line that is true.
fn ask(
    encoded: &[u8],
    route: u32,
    progress: Flat,
    status: &[u8],
    processor: u32,
    marks: &mut [u8],
) -> Result<u32, Refusal>
    requires { length progress.words ≡ 192 }
    ensures { (records : List ℕ) → Flattens progress records
        → told result marks.new
        ≡ awaited_call encoded.now route (state_of [] [] records status.now) processor
        marks.old }
{
    let mut lens = [0; TABLE_WORDS];
    let table = open(encoded, route, &mut lens)?;
    let b = processor as usize;
    check_asking(&table, progress, status, marks.len())?;
    if b >= table.layout.sizes.processors {
        return Err(Refusal::NoSuch);
    }
    let words = progress.words;
    let count = progress.count;
    tell_awaited(&table, &words[0..count], status, b, marks)
}

fn for_c(outcome: Result<u32, Refusal>) -> Waiting
    ensures { (marks : List ℕ) → answer result.number (waits_of marks result.tile) ≡ told outcome marks }
{
    match outcome {
        Ok(tile) => Waiting { number: 0, tile },
        Err(refusal) => Waiting {
            number: refusal.number(),
            tile: 0,
        },
    }
}

// What a processor waits for.
pub fn awaited(
    encoded: &[u8],
    route: u32,
    progress: Flat,
    status: &[u8],
    processor: u32,
    marks: &mut [u8],
) -> Waiting
    requires { length progress.words ≡ 192 }
    ensures { (records : List ℕ) → Flattens progress records
        → answer result.number (waits_of marks.new result.tile)
        ≡ awaited_call encoded.now route (state_of [] [] records status.now) processor
        marks.old }
{
    for_c(ask(encoded, route, progress, status, processor, marks))
}

// ---- taking a message in

// As many words as message m has, where there is one.
pub fn as_long(table: &Table, m: usize, words: usize) -> bool
    ensures { (l : List ℕ) → words ≡ length l → result ≡ as_long (plan_of_table table.now) m l }
{
    let t = table.totals();
    if m >= t.messages {
        return true;
    }
    let place = table.nth(m);
    words == place.words
}

// A message taken in at its taker's.
pub fn take_in(
    encoded: &[u8],
    route: u32,
    source: &[u32],
    memories: &[u32],
    buffer: &mut [u32],
    progress: Flat,
    status: &mut [u8],
    processor: u32,
    message: u32,
    words: &[u32],
) -> Result<(), Refusal>
    requires { length progress.words ≡ 192 }
    ensures { (records : List ℕ) → Flattens progress records
        → answer (number_of result) (state_of memories.now buffer.new records status.new)
        ≡ take_in_call encoded.now route source.now
        (state_of memories.now buffer.old records status.old) processor message words.now }
{
    let mut lens = [0; TABLE_WORDS];
    let table = open(encoded, route, &mut lens)?;
    let m = message as usize;
    if !as_long(&table, m, words.len()) {
        return Err(Refusal::Area);
    }
    engine::inner::check_areas(&table, source, memories, buffer, progress, status)?;
    receive(&table, buffer, status, processor, m, words)
}
