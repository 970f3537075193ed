// The plan printer's text of one recipe on a route, made in a lent space and handed to standard output; and the hops of its messages.
#![tactic(auto)]

ghost use Rattle.std.specs.Prelude.{◌≡◌, [], ◌∷◌, ◌+◌, ◌*◌, ◌≤◌, length, take};
ghost use Rattle.machine.specs.Plan.{count};
ghost use Rattle.layout.specs.RouteWords.{route_of};
ghost use Rattle.tables.specs.Given.{plan_of_table};
ghost use Rattle.text.specs.Writing.{pen, write};
ghost use Rattle.plan_text.specs.PlanText.{number_then, field, figures_text, spaced, lines_text, refused_text, plan_text, printer_text};

use std::io;
use summary::MessageLine;
use tables::{TABLE_WORDS, Table};

// A number of at most ten digits, and a byte behind it.
fn put_number(space: &mut [u8], at: usize, number: u32, after: u8) -> usize
    requires { at + 11 ≤ 4294967295 }
    ensures space_after { pen result space.new ≡ write (pen at space.old) (number_then number after) }
    ensures upper_bound { result ≤ at + 11 }
{
    let next = text::put_decimal(space, at, number);
    text::put(space, next, after)
}

// A word, a number and a byte behind it.
fn put_field(space: &mut [u8], at: usize, word: &[u8], number: u32, after: u8) -> usize
    requires { at + length word.now + 11 ≤ 4294967295 }
    ensures space_after { pen result space.new ≡ write (pen at space.old) (field word.now number after) }
    ensures upper_bound { result ≤ at + length word.now + 11 }
{
    let next = text::put_bytes(space, at, word);
    put_number(space, next, number, after)
}

// Message number, sending tile, taking tile, their processors, words.
fn put_line(space: &mut [u8], at: usize, number: u32, of: MessageLine) -> usize
    requires { at + 66 ≤ 4294967295 }
    ensures space_after { pen result space.new
        ≡ write (pen at space.old) (spaced (number ∷ of.sender ∷ of.taker ∷ of.from ∷ of.to ∷ of.words ∷ [])) }
    ensures upper_bound { result ≤ at + 66 }
{
    let a = put_number(space, at, number, b' ');
    let b = put_number(space, a, of.sender, b' ');
    let c = put_number(space, b, of.taker, b' ');
    let d = put_number(space, c, of.from, b' ');
    let e = put_number(space, d, of.to, b' ');
    put_number(space, e, of.words, b'\n')
}

// The messages in their order.
fn put_lines(space: &mut [u8], at: usize, table: &Table, messages: u32) -> usize
    requires messages_bound { at + 66 * messages ≤ 4294967295 }
    requires messages_value { messages ≡ count (plan_of_table table.now) }
    ensures space_after { pen result space.new ≡ write (pen at space.old) (lines_text (plan_of_table table.now) messages) }
    ensures upper_bound { result ≤ at + 66 * messages }
{
    let mut place = at;
    for m in 0..messages {
        place = put_line(space, place, m, summary::line_of(table, m as usize));
    }
    place
}

fn put_figures(space: &mut [u8], of: summary::Figures) -> usize
    ensures space_after { pen result space.new ≡ write (pen 0 space.old) (figures_text of.tiles of.messages of.words of.steps) }
    ensures upper_bound { result ≤ 71 }
{
    let a = put_field(space, 0, b"tiles ", of.tiles, b' ');
    let b = put_field(space, a, b"messages ", of.messages, b' ');
    let c = put_field(space, b, b"words ", of.words, b' ');
    put_field(space, c, b"steps ", of.steps, b'\n')
}

pub fn put_refused(space: &mut [u8], number: u32) -> usize
    ensures space_after { pen result space.new ≡ write (pen 0 space.old) (refused_text number) }
    ensures upper_bound { result ≤ 19 }
{
    put_field(space, 0, b"refused ", number, b'\n')
}

// The text of a recipe: how many bytes it has, each written where the space has room. A line has at most six numbers of ten digits, a
// plan at most 7,168 messages.
pub fn put_recipe(space: &mut [u8], encoded: &[u8], route: u32) -> usize
    ensures space_after { pen result space.new ≡ write (pen 0 space.old) (plan_text (route_of route) encoded.now) }
    ensures upper_bound { result ≤ 473159 }
{
    if encoded.len() > 512 {
        return put_refused(space, 1);
    }
    let mut lens = [0; TABLE_WORDS];
    let table = match recipe::open(encoded, route, &mut lens) {
        Ok(table) => table,
        Err(refusal) => return put_refused(space, refusal.number()),
    };
    let figures = summary::figures_of(&table);
    let next = put_figures(space, figures);
    put_lines(space, next, &table, figures.messages)
}

// The text at the front of a space that has room for every one.
pub fn write_recipe(space: &mut [u8], encoded: &[u8], route: u32) -> usize
    requires { length space.old ≡ 473159 }
    ensures space_after { take result space.new ≡ plan_text (route_of route) encoded.now }
    ensures upper_bound { result ≤ 473159 }
{
    put_recipe(space, encoded, route)
}

// What was handed to standard output: so many bytes from the front of the space, and whether all of them were written.
#[derive(Drop)]
pub struct Printed {
    pub length: usize,
    pub written: io::Result<()>,
}

// Hands over a recipe's text and nothing else: whether all of it was written. No contract says what the system writes, so this one says what it is given.
fn hand_over(rt: &impl Print, text: &[u8], encoded: &[u8], route: u32) -> io::Result<()>
    requires { text.now ≡ plan_text (route_of route) encoded.now }
{
    rt.write_all(text)
}

// The plan of a recipe of at most 512 bytes, or why it is refused, made in the space and handed over; a longer one is refused as ragged. The
// route is 0 for direct passing, any other for indirect.
pub fn print_by(rt: &impl Print, space: &mut [u8], encoded: &[u8], route: u32) -> Printed
    requires { length space.old ≡ 473159 }
    ensures { take result.length space.new ≡ plan_text (route_of route) encoded.now }
{
    let length = write_recipe(space, encoded, route);
    let written = hand_over(rt, &space[..length], encoded, route);
    Printed { length, written }
}

// The same by direct passing, with which the plan printer stays.
pub fn print_recipe(rt: &impl Print, space: &mut [u8], encoded: &[u8]) -> Printed
    requires { length space.old ≡ 473159 }
    ensures { take result.length space.new ≡ printer_text encoded.now }
{
    print_by(rt, space, encoded, 0)
}

// The same on any route, in a space of its own: whether all of it was written.
pub fn print_routed(rt: &impl Print, encoded: &[u8], route: u32) -> io::Result<()> {
    let mut space = [0u8; 473159];
    print_by(rt, &mut space, encoded, route).written
}

fn print_hop(rt: &impl Print, of: summary::HopCount) -> io::Result<()> {
    print!(rt; " {}", of.hops)
}

// The hops of each message of the direct plan, in one line; nothing where the recipe is refused.
pub fn print_hops(rt: &impl Print, encoded: &[u8]) -> io::Result<()> {
    let figures = summary::summary(encoded, 0);
    if figures.number != 0 {
        return Ok(());
    }
    let messages = figures.messages;
    print!(rt; "hops")?;
    for m in 0..messages {
        print_hop(rt, summary::hops(encoded, m))?;
    }
    println!(rt)
}
