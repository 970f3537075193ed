// The calls for one processor without the stores into its record, which is read as words: their contracts hold for every list of words that the `Flat`
// carries, since code has no other way to name the caller's record.
ghost use Rattle.std.specs.Prelude.{◌≡◌, ℕ, ◌+◌, ◌<◌, ◌≤◌, List, [], length};
ghost use Rattle.base.specs.Lists.{put};
ghost use Rattle.base.specs.Refusals.{number_of};
ghost use Rattle.machine.specs.Plan.{count};
ghost use Rattle.machine.specs.Machine.{state_of};
ghost use Rattle.nest.specs.Nest.{processors};
ghost use Rattle.layout.specs.Sizes.{Routed};
ghost use Rattle.layout.specs.Laid.{plan_of_layout};
ghost use Rattle.tables.specs.Given.{plan_of_table};
ghost use Rattle.records.specs.Records.{Flattens};
ghost use Rattle.engine.specs.Given.{zeros_after};
ghost use Rattle.engine.specs.Calls.{answer};
ghost use Rattle.network.specs.Own.{handled};
ghost use Rattle.part_calls.specs.front.Calls.{lengths_of, no_lengths, part_fresh_call, part_post_call, part_arrive_call, part_collect_call};
ghost use Rattle.part_calls.specs.front.Given.{Known, Many};
ghost use Rattle.part_calls.specs.Given.{fresh_or, handed_over, posted_or, MayArrive, arrived_or, arrives_or};

use crate::AreaLengths;
use crate::front::{Prepared, check_areas, kept_count, open, own_count, part_fits, prepare};
use crate::grid::collect_part;
use base::copy_words;
use base::refusal::{Refusal, number_of};
use layout::Layout;
use part::MESSAGE_ENDS;
use part::sides::arrived;
use records::Flat;
use tables::{TABLE_WORDS, Table};
use transport::inner::as_long;

// ---- how long the areas are

// Where the recipe or the processor's number is refused.
pub fn no_sizes(number: u32) -> AreaLengths
    ensures { result ≡ no_lengths number }
{
    AreaLengths {
        number,
        cells: 0,
        kept: 0,
        words: 0,
        messages: 0,
    }
}

// The four lengths.
pub fn sizes_of(layout: &Layout, b: usize) -> AreaLengths
    requires routed { Routed layout.now.nest layout.now.sizes }
    requires low { b < processors layout.now.nest }
    ensures { result ≡ lengths_of (plan_of_layout layout.now) b }
{
    let mut lens = [0; TABLE_WORDS];
    let mut ordinals = [0u32; MESSAGE_ENDS];
    let mut starts = [0u32; MESSAGE_ENDS];
    let Prepared { table, messages } = prepare(layout, b, &mut lens, &mut ordinals, &mut starts);
    let own = own_count(layout, b);
    let kept = kept_count(&table, b);
    AreaLengths {
        number: 0,
        cells: own as u32,
        kept: kept as u32,
        words: starts[messages],
        messages: ordinals[messages],
    }
}

// ---- a fresh start

// Line 9, then zeros.
fn fresh_part(
    layout: &Layout,
    memory: &mut [u32],
    mail: &mut [u32],
    words: usize,
    marks: &mut [u8],
    b: usize,
) -> Result<(), Refusal>
    requires routed { Routed layout.now.nest layout.now.sizes }
    requires low { b < processors layout.now.nest }
    ensures { (records : List ℕ) → words ≡ length records
        → answer (number_of result) (state_of memory.new mail.new (zeros_after records (number_of result)) marks.new)
        ≡ fresh_or (plan_of_layout layout.now) b (state_of memory.old mail.old records marks.old) }
{
    let mut lens = [0; TABLE_WORDS];
    let mut ordinals = [0u32; MESSAGE_ENDS];
    let mut starts = [0u32; MESSAGE_ENDS];
    let Prepared { table, messages } = prepare(layout, b, &mut lens, &mut ordinals, &mut starts);
    let many = kept_count(&table, b);
    if !part_fits(
        &table, &ordinals, &starts, messages, many, memory, mail, words, marks, b,
    ) {
        return Err(Refusal::Area);
    }
    memory.fill(0);
    mail.fill(0);
    marks.fill(0);
    Ok(())
}

// A fresh start of all but the record, which has so many words.
pub fn fresh(
    encoded: &[u8],
    route: u32,
    memory: &mut [u32],
    mail: &mut [u32],
    words: usize,
    marks: &mut [u8],
    processor: u32,
) -> u32
    ensures { (records : List ℕ) → words ≡ length records
        → answer result (state_of memory.new mail.new (zeros_after records result) marks.new)
        ≡ part_fresh_call encoded.now route (state_of memory.old mail.old records marks.old) processor }
{
    match open(encoded, route, processor) {
        Ok(layout) => number_of(&fresh_part(
            &layout,
            memory,
            mail,
            words,
            marks,
            processor as usize,
        )),
        Err(refusal) => refusal.number(),
    }
}

// ---- a message handed over to a transport

// Line 11, line 14, then the mark.
fn hand_over(
    table: &Table,
    ordinals: &[u32; MESSAGE_ENDS],
    starts: &[u32; MESSAGE_ENDS],
    messages: usize,
    marks: &mut [u8],
    b: usize,
    m: usize,
) -> Result<(), Refusal>
    requires { Known table.now b ordinals.now starts.now
        × ((messages ≡ count (plan_of_table table.now)) × (length marks.old ≡ length (handled (plan_of_table table.now) b))) }
    ensures { (memory mail records : List ℕ) → answer (number_of result) (state_of memory mail records marks.new)
        ≡ handed_over (plan_of_table table.now) b (state_of memory mail records marks.old) m }
{
    if m >= messages {
        return Err(Refusal::NoSuch);
    }
    let at = ordinals[m] as usize;
    let next = ordinals[m + 1] as usize;
    if next == at {
        return Err(Refusal::NoMail);
    }
    if marks[at] != 1 {
        return Err(Refusal::NoMail);
    }
    marks[at] = 2;
    Ok(())
}

// Lines 9 and 10, then these.
fn post_part(
    layout: &Layout,
    memory: &[u32],
    mail: &[u32],
    progress: Flat,
    marks: &mut [u8],
    b: usize,
    m: usize,
) -> Result<(), Refusal>
    requires routed { Routed layout.now.nest layout.now.sizes }
    requires low { (b < processors layout.now.nest) × (length progress.words ≡ 192) }
    ensures { (records : List ℕ) → Flattens progress records
        → answer (number_of result) (state_of memory.now mail.now records marks.new)
        ≡ posted_or (plan_of_layout layout.now) b (state_of memory.now mail.now records marks.old) m }
{
    let mut lens = [0; TABLE_WORDS];
    let mut ordinals = [0u32; MESSAGE_ENDS];
    let mut starts = [0u32; MESSAGE_ENDS];
    let Prepared { table, messages } = prepare(layout, b, &mut lens, &mut ordinals, &mut starts);
    let many = kept_count(&table, b);
    check_areas(
        &table, &ordinals, &starts, messages, many, memory, mail, progress, marks, b,
    )?;
    hand_over(&table, &ordinals, &starts, messages, marks, b, m)
}

// A message is handed over to a transport; its words lie in the mail.
pub fn post(
    encoded: &[u8],
    route: u32,
    memory: &[u32],
    mail: &[u32],
    progress: Flat,
    marks: &mut [u8],
    processor: u32,
    message: u32,
) -> u32
    requires { length progress.words ≡ 192 }
    ensures { (records : List ℕ) → Flattens progress records
        → answer result (state_of memory.now mail.now records marks.new)
        ≡ part_post_call encoded.now route (state_of memory.now mail.now records marks.old) processor message }
{
    match open(encoded, route, processor) {
        Ok(layout) => number_of(&post_part(
            &layout,
            memory,
            mail,
            progress,
            marks,
            processor as usize,
            message as usize,
        )),
        Err(refusal) => refusal.number(),
    }
}

// ---- a message arrives

// The words to where they begin in the mail.
fn store_words(mail: &mut [u32], from: usize, words: &[u32])
    requires { from + length words.now ≤ length mail.old }
    ensures { mail.new ≡ put mail.old from words.now }
{
    let end = from + words.len();
    copy_words(&mut mail[from..end], words);
}

// Line 11, line 14, then the words into their place and the mark.
fn receive(
    table: &Table,
    ordinals: &[u32; MESSAGE_ENDS],
    starts: &[u32; MESSAGE_ENDS],
    messages: usize,
    mail: &mut [u32],
    marks: &mut [u8],
    b: usize,
    m: usize,
    words: &[u32],
) -> Result<(), Refusal>
    requires known { Known table.now b ordinals.now starts.now }
    requires messages_value { (messages ≡ count (plan_of_table table.now)) × MayArrive (plan_of_table table.now) b mail.old marks.old m words.now }
    ensures { (memory records : List ℕ)
        → answer (number_of result) (state_of memory mail.new records marks.new)
        ≡ arrived_or (plan_of_table table.now) b (state_of memory mail.old records marks.old) m words.now }
{
    if m >= messages {
        return Err(Refusal::NoSuch);
    }
    let place = table.nth(m);
    let line = summary::line_at(table, place);
    if line.to as usize != b {
        return Err(Refusal::NoSuch);
    }
    let at = ordinals[m] as usize;
    let from = starts[m] as usize;
    if !arrived(marks, at) {
        return Err(Refusal::NoMail);
    }
    store_words(mail, from, words);
    Ok(())
}

// Lines 9 and 10, then these.
fn arrive_in(
    table: &Table,
    ordinals: &[u32; MESSAGE_ENDS],
    starts: &[u32; MESSAGE_ENDS],
    messages: usize,
    many: usize,
    memory: &[u32],
    mail: &mut [u32],
    progress: Flat,
    marks: &mut [u8],
    b: usize,
    m: usize,
    words: &[u32],
) -> Result<(), Refusal>
    requires { Known table.now b ordinals.now starts.now × (Many table.now b messages many × (length progress.words ≡ 192)) }
    ensures { (records : List ℕ) → Flattens progress records
        → answer (number_of result) (state_of memory.now mail.new records marks.new)
        ≡ arrives_or (plan_of_table table.now) b (state_of memory.now mail.old records marks.old) m
        words.now }
{
    if !as_long(table, m, words.len()) {
        return Err(Refusal::Area);
    }
    check_areas(
        table, ordinals, starts, messages, many, memory, mail, progress, marks, b,
    )?;
    receive(table, ordinals, starts, messages, mail, marks, b, m, words)
}

// The same, what is known of the part found first.
fn arrive_part(
    layout: &Layout,
    memory: &[u32],
    mail: &mut [u32],
    progress: Flat,
    marks: &mut [u8],
    b: usize,
    m: usize,
    words: &[u32],
) -> Result<(), Refusal>
    requires routed { Routed layout.now.nest layout.now.sizes }
    requires low { (b < processors layout.now.nest) × (length progress.words ≡ 192) }
    ensures { (records : List ℕ) → Flattens progress records
        → answer (number_of result) (state_of memory.now mail.new records marks.new)
        ≡ arrives_or (plan_of_layout layout.now) b (state_of memory.now mail.old records marks.old) m
        words.now }
{
    let mut lens = [0; TABLE_WORDS];
    let mut ordinals = [0u32; MESSAGE_ENDS];
    let mut starts = [0u32; MESSAGE_ENDS];
    let Prepared { table, messages } = prepare(layout, b, &mut lens, &mut ordinals, &mut starts);
    let many = kept_count(&table, b);
    arrive_in(
        &table, &ordinals, &starts, messages, many, memory, mail, progress, marks, b, m, words,
    )
}

// A message arrives with these words.
pub fn arrive(
    encoded: &[u8],
    route: u32,
    memory: &[u32],
    mail: &mut [u32],
    progress: Flat,
    marks: &mut [u8],
    processor: u32,
    message: u32,
    words: &[u32],
) -> u32
    requires { length progress.words ≡ 192 }
    ensures { (records : List ℕ) → Flattens progress records
        → answer result (state_of memory.now mail.new records marks.new)
        ≡ part_arrive_call encoded.now route (state_of memory.now mail.old records marks.old) processor message
        words.now }
{
    match open(encoded, route, processor) {
        Ok(layout) => number_of(&arrive_part(
            &layout,
            memory,
            mail,
            progress,
            marks,
            processor as usize,
            message as usize,
            words,
        )),
        Err(refusal) => refusal.number(),
    }
}

// ---- collecting

// Its own cells' words into the grid.
pub fn collect(
    encoded: &[u8],
    route: u32,
    memory: &[u32],
    progress: Flat,
    processor: u32,
    grid: &mut [u32],
) -> u32
    requires { length progress.words ≡ 192 }
    ensures { (records : List ℕ) → Flattens progress records
        → answer result grid.new
        ≡ part_collect_call encoded.now route (state_of memory.now [] records []) processor grid.old }
{
    match open(encoded, route, processor) {
        Ok(layout) => number_of(&collect_part(&layout, memory, progress, processor as usize, grid)),
        Err(refusal) => refusal.number(),
    }
}
