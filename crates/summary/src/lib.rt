// The calls about a plan: its figures, the line of one message, its hops.
#![tactic(auto)]

ghost use Rattle.std.specs.Prelude.{◌≡◌, ◌≢◌, ◌<◌};
ghost use Rattle.base.specs.Refusals.{code};
ghost use Rattle.machine.specs.Plan.{count};
ghost use Rattle.nest.specs.Accepted.{Accepted};
ghost use Rattle.nest.specs.Places.{rank};
ghost use Rattle.plan.specs.declared.Route.TheVariants.{Direct};
ghost use Rattle.plan.specs.Messages.{two};
ghost use Rattle.plan.specs.Hops.{hops};
ghost use Rattle.conformance.specs.Examples.{refused};
ghost use Rattle.layout.specs.RouteWords.{route_of};
ghost use Rattle.layout.specs.Laid.{plan_of_layout};
ghost use Rattle.tables.specs.Given.{plan_of_table};
ghost use Rattle.tables.specs.Tables.{FoundIn};
ghost use Rattle.summary.specs.Summary.{as_figures, figures_of, summary_of, line_of, no_line, message_line_of, direction_of, many, no_hops, hops_of};

use base::refusal::Refusal;
use layout::Layout;
use nest::Nest;
use tables::scans::MessageSlot;
use tables::{TABLE_WORDS, Table};

// What is said of a plan as a whole; number is 0, or why the recipe is refused.
#[repr(C)]
#[derive(Clone, Copy)]
pub struct Figures {
    pub number: u32,
    pub tiles: u32,
    pub messages: u32,
    pub words: u32,
    pub steps: u32,
}

// What is said of one message: its tiles, their processors, its words.
#[repr(C)]
#[derive(Clone, Copy)]
pub struct MessageLine {
    pub number: u32,
    pub sender: u32,
    pub taker: u32,
    pub from: u32,
    pub to: u32,
    pub words: u32,
}

// How often a message of the direct route is passed on along the indirect one.
#[repr(C)]
#[derive(Clone, Copy)]
pub struct HopCount {
    pub number: u32,
    pub hops: u32,
}

// The plan's figures.
pub fn figures_of(table: &Table) -> Figures
    ensures { result ≡ figures_of (plan_of_table table.now) }
{
    let tiles = table.tiles_of();
    let total = table.totals();
    Figures {
        number: 0,
        tiles: tiles as u32,
        messages: total.messages as u32,
        words: total.words as u32,
        steps: (2 * tiles + 2 * total.messages) as u32,
    }
}

// The line of a message of a nest without bounds.
fn box_line(layout: &Layout, place: MessageSlot) -> MessageLine
    requires { (layout.now.nest.bounds ≡ 0) × FoundIn layout.now.sizes.route layout.now.nest place.number place }
    ensures { result ≡ line_of (plan_of_layout layout.now) place.number }
{
    let slot = place.slot;
    let sender = layout.end_of(slot, 0);
    let taker = layout.end_of(slot, 1);
    let from = layout.processor_of(sender);
    let to = layout.processor_of(taker);
    MessageLine {
        number: 0,
        sender: sender as u32,
        taker: taker as u32,
        from: from as u32,
        to: to as u32,
        words: place.words as u32,
    }
}

// The line of a message of a nest with bounds.
fn shape_line(table: &Table, place: MessageSlot) -> MessageLine
    requires sized { table.now.layout.nest.bounds ≢ 0 }
    requires found_in { FoundIn table.now.layout.sizes.route table.now.layout.nest place.number place }
    ensures { result ≡ line_of (plan_of_table table.now) place.number }
{
    let slot = place.slot;
    let sender = slot / table.layout.sizes.ways;
    let taker = tables::shaped_table::taker_of(&table.layout, table.lens, slot);
    let from = tables::shaped_table::owner_of(table.layout.nest, table.lens, sender);
    let to = tables::shaped_table::owner_of(table.layout.nest, table.lens, taker);
    MessageLine {
        number: 0,
        sender: sender as u32,
        taker: taker as u32,
        from: from as u32,
        to: to as u32,
        words: place.words as u32,
    }
}

// The line of the message found at a place.
pub fn line_at(table: &Table, place: MessageSlot) -> MessageLine
    requires found_in { FoundIn table.now.layout.sizes.route table.now.layout.nest place.number place }
    ensures { result ≡ line_of (plan_of_table table.now) place.number }
{
    if table.layout.nest.bounds == 0 {
        return box_line(&table.layout, place);
    }
    shape_line(table, place)
}

// The line of message m.
pub fn line_of(table: &Table, m: usize) -> MessageLine
    requires m_bound { m < count (plan_of_table table.now) }
    ensures { result ≡ line_of (plan_of_table table.now) m }
{
    let place = table.nth(m);
    line_at(table, place)
}

// Figures, line and hops where the recipe or the message's number is refused.
fn no_figures(refusal: Refusal) -> Figures
    ensures { result ≡ as_figures (refused (code refusal)) }
{
    Figures {
        number: refusal.number(),
        tiles: 0,
        messages: 0,
        words: 0,
        steps: 0,
    }
}

fn no_line(refusal: Refusal) -> MessageLine
    ensures { result ≡ no_line (code refusal) }
{
    MessageLine {
        number: refusal.number(),
        sender: 0,
        taker: 0,
        from: 0,
        to: 0,
        words: 0,
    }
}

fn no_hops(refusal: Refusal) -> HopCount
    ensures { result ≡ no_hops (code refusal) }
{
    HopCount {
        number: refusal.number(),
        hops: 0,
    }
}

// Offered to callers: the figures of the recipe's plan on a route, 0 direct, any other indirect.
pub fn summary(encoded: &[u8], route: u32) -> Figures
    ensures { result ≡ summary_of (route_of route) encoded.now }
{
    let mut lens = [0; TABLE_WORDS];
    match recipe::open(encoded, route, &mut lens) {
        Ok(table) => figures_of(&table),
        Err(refusal) => no_figures(refusal),
    }
}

// Offered to callers: the line of message m of the recipe's plan on a route.
pub fn message(encoded: &[u8], route: u32, m: u32) -> MessageLine
    ensures { result ≡ message_line_of (route_of route) encoded.now m }
{
    let mut lens = [0; TABLE_WORDS];
    let table = match recipe::open(encoded, route, &mut lens) {
        Ok(table) => table,
        Err(refusal) => return no_line(refusal),
    };
    let at = m as usize;
    let total = table.totals();
    if at >= total.messages {
        return no_line(Refusal::NoSuch);
    }
    line_of(&table, at)
}

// The mask of the spread dimensions with a count above 1: dimension one is the highest bit, as in a direction.
fn many_of(nest: Nest) -> u32
    requires { Accepted nest }
    ensures { result ≡ rank two (many nest) nest.spread }
{
    let mut mask = 0;
    for &count in &nest.counts[..nest.spread] {
        mask *= 2;
        if count > 1 {
            mask += 1;
        }
    }
    mask
}

// The hops of a direction: its ones in these dimensions.
fn hops_along(nest: Nest, direction: u32) -> u32
    requires { Accepted nest }
    ensures { result ≡ hops nest direction }
{
    let many = many_of(nest);
    u32::count_ones(direction & many)
}

// The hops of message m of the direct plan: those of its slot's direction.
fn hops_at(table: &Table, m: usize) -> u32
    requires sized { table.now.layout.sizes.route ≡ Direct }
    requires m_bound { m < count (plan_of_table table.now) }
    ensures { result ≡ hops table.now.layout.nest (direction_of table.now.layout.nest m) }
{
    let place = table.nth(m);
    let direction = place.slot % table.layout.sizes.ways + 1;
    hops_along(table.layout.nest, direction as u32)
}

// Offered to callers: the hops on the indirect route of message m of the recipe's direct plan.
pub fn hops(encoded: &[u8], m: u32) -> HopCount
    ensures { result ≡ hops_of encoded.now m }
{
    let mut lens = [0; TABLE_WORDS];
    let table = match recipe::open(encoded, 0, &mut lens) {
        Ok(table) => table,
        Err(refusal) => return no_hops(refusal),
    };
    let message = m as usize;
    let total = table.totals();
    if message >= total.messages {
        return no_hops(Refusal::NoSuch);
    }
    HopCount {
        number: 0,
        hops: hops_at(&table, message),
    }
}
