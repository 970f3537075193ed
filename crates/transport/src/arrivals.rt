// A message that arrives at its taker's: past the lines before it, its words go into their place, and its mark says so.
ghost use Rattle.std.specs.Prelude.{◌≡◌, ℕ, List};
ghost use Rattle.base.specs.Refusals.{number_of};
ghost use Rattle.machine.specs.Machine.{state_of};
ghost use Rattle.tables.specs.Given.{plan_of_table};
ghost use Rattle.engine.specs.Calls.{answer};
ghost use Rattle.transport.specs.arrivals.Taking.{MayTake, received_or};

use base::copy_words;
use base::refusal::Refusal;
use tables::Table;

// Line 11, line 14, then the words into their place and the mark.
pub fn receive(
    table: &Table,
    buffer: &mut [u32],
    status: &mut [u8],
    processor: u32,
    m: usize,
    words: &[u32],
) -> Result<(), Refusal>
    requires { MayTake (plan_of_table table.now) buffer.old status.old m words.now }
    ensures { (memories records : List ℕ)
        → answer (number_of result) (state_of memories buffer.new records status.new)
        ≡ received_or (plan_of_table table.now) (state_of memories buffer.old records status.old) processor m words.now }
{
    if m >= status.len() {
        return Err(Refusal::NoSuch);
    }
    let place = table.nth(m);
    let line = summary::line_at(table, place);
    if line.to != processor {
        return Err(Refusal::NoSuch);
    }
    if status[m] != 0 {
        return Err(Refusal::NoMail);
    }
    let offset = place.offset;
    let end = offset + place.words;
    copy_words(&mut buffer[offset..end], words);
    status[m] = 2;
    Ok(())
}
