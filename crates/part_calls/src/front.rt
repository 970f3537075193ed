// What the calls for one processor that is lent its own part alone share: their first lines, what is found once in a call, lines 9 and 10 of a lent part,
// and how many words its source has. `check_areas` is lent the record as words: its contract holds for every list of words that the `Flat` carries, since code
// has no other way to name the caller's record.
ghost use Rattle.std.specs.Prelude.{◌≡◌, ℕ, ◌<◌, ◌≤◌, List, length, OnOk};
ghost use Rattle.base.specs.Numbers.{first_of};
ghost use Rattle.base.specs.Refusals.{number_of};
ghost use Rattle.machine.specs.Plan.{count};
ghost use Rattle.machine.specs.Machine.{State, state_of, finished_of, stage_of, sent_of, fit_record};
ghost use Rattle.nest.specs.Nest.{cells, processors};
ghost use Rattle.layout.specs.Sizes.{Routed};
ghost use Rattle.layout.specs.Laid.{plan_of_layout};
ghost use Rattle.tables.specs.Given.{plan_of_table};
ghost use Rattle.records.specs.Records.{Flattens};
ghost use Rattle.network.specs.Own.{owns, keeps, own_cells, kept_cells};
ghost use Rattle.part.specs.Part.{part_fits};
ghost use Rattle.part_calls.specs.front.Given.{OpensFor, Known, Cells, Many, unfit_lines};

use base::refusal::Refusal;
use layout::Layout;
use nest::MOST_CELLS;
use part::MESSAGE_ENDS;
use rank_index::{BLOCKS, fill_counts, rank};
use recipe::lay_out;
use records::Flat;
use stages::fit_status;
use tables::{TABLE_WORDS, Table};

// ---- the first lines

// The reader's lines and the route's, then 11.
pub fn open(encoded: &[u8], route: u32, processor: u32) -> Result<Layout, Refusal>
    ensures { OpensFor encoded.now route processor result }
{
    let layout = lay_out(encoded, route)?;
    if processor as usize >= layout.sizes.processors {
        return Err(Refusal::NoSuch);
    }
    Ok(layout)
}

// ---- what is found once in a call

// A layout's table, and how many messages there are.
#[derive(Drop)]
pub struct Prepared<'a> {
    pub table: Table<'a>,
    pub messages: usize,
}

// The table, in words that the caller lends for it, and where each message stands in the part.
pub fn prepare<'a>(
    layout: &Layout,
    b: usize,
    lens: &'a mut [u16; TABLE_WORDS],
    ordinals: &mut [u32; MESSAGE_ENDS],
    starts: &mut [u32; MESSAGE_ENDS],
) -> Prepared<'a>
    requires routed { Routed layout.now.nest layout.now.sizes }
    requires low { b < processors layout.now.nest }
    requires lengths { (length lens.old ≡ 9217) × ((length ordinals.old ≡ 7169) × (length starts.old ≡ 7169)) }
    ensures table { result.table.layout ≡ layout.now }
    ensures known { Known result.table b ordinals.new starts.new × (result.messages ≡ count (plan_of_table result.table)) }
{
    let table = Table::of(*layout, lens);
    part::fill_handled(&table, b, ordinals, starts);
    let messages = table.totals().messages;
    Prepared { table, messages }
}

// The cells that processor b keeps words of, marked, and their counts; how many they are.
pub fn keep_cells(table: &Table, b: usize, kept: &mut [u8], counts: &mut [u32; BLOCKS]) -> usize
    requires { (b < processors table.now.layout.nest) × ((length kept.old ≡ cells table.now.layout.nest) × (length counts.old ≡ 257)) }
    ensures { Cells table.now.layout.nest (keeps (plan_of_table table.now) b) kept.new counts.new
        × (result ≡ length (kept_cells (plan_of_table table.now) b)) }
{
    part::mark_kept(table, b, kept);
    fill_counts(kept, counts);
    rank(kept, counts, table.layout.sizes.cells)
}

// The cells of its tiles.
pub fn own_cells(layout: &Layout, b: usize, owned: &mut [u8], counts: &mut [u32; BLOCKS]) -> usize
    requires routed { Routed layout.now.nest layout.now.sizes }
    requires low { b < processors layout.now.nest }
    requires owned_len { (length owned.old ≡ cells layout.now.nest) × (length counts.old ≡ 257) }
    ensures { Cells layout.now.nest (owns (plan_of_layout layout.now) b) owned.new counts.new
        × (result ≡ length (own_cells (plan_of_layout layout.now) b)) }
{
    part::mark_own(layout, b, owned);
    fill_counts(owned, counts);
    rank(owned, counts, layout.sizes.cells)
}

// How many cells the processor keeps: the words of its memory.
pub fn kept_count(table: &Table, b: usize) -> usize
    requires { b < processors table.now.layout.nest }
    ensures { (result ≡ length (kept_cells (plan_of_table table.now) b)) × (result ≤ 16384) }
{
    let cells = table.layout.sizes.cells;
    let mut kept = [0u8; MOST_CELLS];
    let mut counts = [0u32; BLOCKS];
    keep_cells(table, b, &mut kept[..cells], &mut counts)
}

// How many cells the processor's tiles have: the words of its source.
pub fn own_count(layout: &Layout, b: usize) -> usize
    requires routed { Routed layout.now.nest layout.now.sizes }
    requires low { b < processors layout.now.nest }
    ensures { (result ≡ length (own_cells (plan_of_layout layout.now) b)) × (result ≤ 16384) }
{
    let cells = layout.sizes.cells;
    let mut owned = [0u8; MOST_CELLS];
    let mut counts = [0u32; BLOCKS];
    own_cells(layout, b, &mut owned[..cells], &mut counts)
}

// ---- lines 9 and 10

// Each lent area of processor b's has its length; `words` is how many words the records have.
pub fn part_fits(
    table: &Table,
    ordinals: &[u32; MESSAGE_ENDS],
    starts: &[u32; MESSAGE_ENDS],
    messages: usize,
    many: usize,
    memory: &[u32],
    mail: &[u32],
    words: usize,
    marks: &[u8],
    b: usize,
) -> bool
    requires { Known table.now b ordinals.now starts.now × Many table.now b messages many }
    ensures { (records : List ℕ) → words ≡ length records
        → result ≡ part_fits (plan_of_table table.now) b (state_of memory.now mail.now records marks.now) }
{
    memory.len() == many
        && mail.len() == starts[messages] as usize
        && words == 3
        && marks.len() == ordinals[messages] as usize
}

// The record of processor b is fit: so many tiles finished, its stage, so many messages sent.
pub fn fit_own(table: &Table, b: usize, finished: u32, stage: u32, sent: u32) -> bool
    ensures { (s : State) → finished ≡ finished_of s b → stage ≡ stage_of s b → sent ≡ sent_of s b
        → result ≡ fit_record (plan_of_table table.now) s b }
{
    let f = finished as usize;
    let k = sent as usize;
    let n = table.tile_count(b);
    if f < n {
        if stage == 2 {
            let tile = table.tile_at(b, f);
            return k < table.count_at(tile, 0);
        }
        return stage < 2 && k == 0;
    }
    f == n && stage == 0 && k == 0
}

// Lines 9 and 10 of a lent part.
pub fn check_areas(
    table: &Table,
    ordinals: &[u32; MESSAGE_ENDS],
    starts: &[u32; MESSAGE_ENDS],
    messages: usize,
    many: usize,
    memory: &[u32],
    mail: &[u32],
    progress: Flat,
    marks: &[u8],
    b: usize,
) -> Result<(), Refusal>
    requires { Known table.now b ordinals.now starts.now × (Many table.now b messages many × (length progress.words ≡ 192)) }
    ensures lines { (records : List ℕ) → Flattens progress records
        → number_of result ≡ first_of (unfit_lines (plan_of_table table.now) b (state_of memory.now mail.now records marks.now)) }
    ensures three { OnOk result (progress.count ≡ 3) }
{
    let count = progress.count;
    if !part_fits(
        table, ordinals, starts, messages, many, memory, mail, count, marks, b,
    ) {
        return Err(Refusal::Area);
    }
    let words = progress.words;
    if !fit_own(table, b, words[0], words[1], words[2]) {
        return Err(Refusal::Unfit);
    }
    if !fit_status(marks) {
        return Err(Refusal::Unfit);
    }
    Ok(())
}
