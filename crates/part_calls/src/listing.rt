// The messages that a processor handles: a row of seven words for each.
ghost use Rattle.std.specs.Prelude.{◌≡◌, ◌*◌, ◌<◌, [], ◌∷◌, length};
ghost use Rattle.base.specs.Tests.{pick};
ghost use Rattle.base.specs.Lists.{put};
ghost use Rattle.base.specs.Refusals.{number_of};
ghost use Rattle.machine.specs.Plan.{count};
ghost use Rattle.nest.specs.Nest.{processors};
ghost use Rattle.layout.specs.Sizes.{Routed};
ghost use Rattle.layout.specs.Laid.{plan_of_layout};
ghost use Rattle.tables.specs.Given.{plan_of_table};
ghost use Rattle.engine.specs.Calls.{answer};
ghost use Rattle.network.specs.Own.{handles, handled};
ghost use Rattle.part.specs.Part.{rank_of};
ghost use Rattle.part_calls.specs.front.Calls.{part_row, part_rows};
ghost use Rattle.part_calls.specs.front.Given.{Known};
ghost use Rattle.part_calls.specs.Given.{rows_or};

use crate::front::{Prepared, prepare};
use base::refusal::Refusal;
use layout::Layout;
use part::MESSAGE_ENDS;
use summary::MessageLine;
use tables::{TABLE_WORDS, Table};

// A row's words: the message's number, its line, and where its words begin in the mail.
fn store_row(row: &mut [u32], number: u32, line: MessageLine, at: u32)
    requires { length row.old ≡ 7 }
    ensures { row.new ≡ number ∷ line.sender ∷ line.taker ∷ line.from ∷ line.to ∷ line.words ∷ at ∷ [] }
{
    row[0] = number;
    row[1] = line.sender;
    row[2] = line.taker;
    row[3] = line.from;
    row[4] = line.to;
    row[5] = line.words;
    row[6] = at;
}

// The row of message m, where the processor handles it.
fn put_row(
    table: &Table,
    ordinals: &[u32; MESSAGE_ENDS],
    starts: &[u32; MESSAGE_ENDS],
    b: usize,
    m: usize,
    out: &mut [u32],
)
    requires known { Known table.now b ordinals.now starts.now × (m < count (plan_of_table table.now)) }
    requires out_len { length out.old ≡ 7 * length (handled (plan_of_table table.now) b) }
    ensures { out.new
        ≡ pick (handles (plan_of_table table.now) b m)
        (put out.old (7 * rank_of (plan_of_table table.now) b m) (part_row (plan_of_table table.now) b m)) out.old }
{
    let rank = ordinals[m] as usize;
    let next = ordinals[m + 1] as usize;
    if next != rank {
        let place = table.nth(m);
        let line = summary::line_at(table, place);
        let at = 7 * rank;
        let end = at + 7;
        store_row(&mut out[at..end], m as u32, line, starts[m]);
    }
}

// The rows of all that it handles.
fn put_rows(
    table: &Table,
    ordinals: &[u32; MESSAGE_ENDS],
    starts: &[u32; MESSAGE_ENDS],
    messages: usize,
    b: usize,
    out: &mut [u32],
)
    requires known { Known table.now b ordinals.now starts.now × (messages ≡ count (plan_of_table table.now)) }
    requires out_len { length out.old ≡ 7 * length (handled (plan_of_table table.now) b) }
    ensures { out.new ≡ part_rows (plan_of_table table.now) b (handled (plan_of_table table.now) b) }
{
    for m in 0..messages {
        put_row(table, ordinals, starts, b, m, out);
    }
}

// Line 9, then the rows.
pub fn messages_part(layout: &Layout, b: usize, out: &mut [u32]) -> Result<(), Refusal>
    requires routed { Routed layout.now.nest layout.now.sizes }
    requires low { b < processors layout.now.nest }
    ensures { answer (number_of result) out.new ≡ rows_or (plan_of_layout layout.now) b out.old }
{
    let mut lens = [0; TABLE_WORDS];
    let mut ordinals = [0u32; MESSAGE_ENDS];
    let mut starts = [0u32; MESSAGE_ENDS];
    let Prepared { table, messages } = prepare(layout, b, &mut lens, &mut ordinals, &mut starts);
    if out.len() != 7 * ordinals[messages] as usize {
        return Err(Refusal::Area);
    }
    put_rows(&table, &ordinals, &starts, messages, b, out);
    Ok(())
}
