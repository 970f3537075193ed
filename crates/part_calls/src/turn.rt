// A turn of the processor on its part: its lines, then the stage at which it stands. The part after is that of the machine's areas after the machine's turn.
ghost use Rattle.std.specs.Prelude.{◌≡◌, ℕ, ◌<◌, ◌≢◌, List, length, slice_index};
ghost use Rattle.base.specs.Refusals.{number_of};
ghost use Rattle.machine.specs.Machine.{state_of};
ghost use Rattle.nest.specs.Nest.{processors};
ghost use Rattle.layout.specs.Sizes.{Routed};
ghost use Rattle.layout.specs.Laid.{plan_of_layout};
ghost use Rattle.tables.specs.Given.{plan_of_table};
ghost use Rattle.records.specs.Records.{Flattens};
ghost use Rattle.stages.specs.Progress.{set_record};
ghost use Rattle.engine.specs.Given.{records_after};
ghost use Rattle.engine.specs.Calls.{answer};
ghost use Rattle.network.specs.Own.{own_cells};
ghost use Rattle.part_calls.specs.front.Calls.{part_turn_call};
ghost use Rattle.part_calls.specs.front.Given.{Many, PartLengths};
ghost use Rattle.part_calls.specs.turn.Step.{Tables, Stands, MayStep, stepped_or, turned_or};

pub mod on_part; // on_part.rt: the stages

use crate::front::{Prepared, check_areas, keep_cells, open, own_count, prepare};
use base::refusal::Refusal;
use layout::Layout;
use nest::MOST_CELLS;
use on_part::{calculate_stage, gather_stage, ready, send_stage};
use part::MESSAGE_ENDS;
use rank_index::BLOCKS;
use records::{Flat, Progress};
use tables::{TABLE_WORDS, Table};

// Stage 0: 12 where a message due is not delivered.
fn first_stage(
    table: &Table,
    kept: &[u8],
    counts: &[u32; BLOCKS],
    ordinals: &[u32; MESSAGE_ENDS],
    starts: &[u32; MESSAGE_ENDS],
    memory: &mut [u32],
    mail: &[u32],
    progress: &[u32],
    marks: &mut [u8],
    b: usize,
    tile: usize,
) -> Result<Progress, Refusal>
    requires tables { Tables table.now b kept.now counts.now ordinals.now starts.now }
    requires part_lengths { PartLengths (plan_of_table table.now) b (state_of memory.old mail.now progress.now marks.old)
        × Stands (plan_of_table table.now) progress.now b tile }
    ensures { (source : List ℕ)
        → MayStep (plan_of_table table.now) source (state_of memory.old mail.now progress.now marks.old) b
        → slice_index progress.now 1 ≡ 0
        → answer (number_of result) (state_of memory.new mail.now (records_after progress.now 0 result) marks.new)
        ≡ stepped_or (plan_of_table table.now) source
        (state_of memory.old mail.now progress.now marks.old) b }
{
    if !ready(table, ordinals, marks, tile) {
        return Err(Refusal::Waiting);
    }
    Ok(gather_stage(
        table,
        kept,
        counts,
        ordinals,
        starts,
        memory,
        mail,
        marks,
        b,
        tile,
        progress[0],
    ))
}

// Stages 1 and 2.
fn later_stage(
    table: &Table,
    kept: &[u8],
    counts: &[u32; BLOCKS],
    ordinals: &[u32; MESSAGE_ENDS],
    starts: &[u32; MESSAGE_ENDS],
    source: &[u32],
    memory: &mut [u32],
    mail: &mut [u32],
    progress: &[u32],
    marks: &mut [u8],
    b: usize,
    tile: usize,
) -> Progress
    requires tables { Tables table.now b kept.now counts.now ordinals.now starts.now }
    requires may_step { MayStep (plan_of_table table.now) source.now (state_of memory.old mail.old progress.now marks.old) b
        × (Stands (plan_of_table table.now) progress.now b tile × (slice_index progress.now 1 ≢ 0)) }
    ensures { answer 0 (state_of memory.new mail.new (set_record progress.now 0 result) marks.new)
        ≡ stepped_or (plan_of_table table.now) source.now
        (state_of memory.old mail.old progress.now marks.old) b }
{
    let finished = progress[0];
    if progress[1] == 1 {
        return calculate_stage(
            table, kept, counts, ordinals, starts, source, memory, b, tile, finished,
        );
    }
    let sent = progress[2] as usize;
    send_stage(
        table, kept, counts, ordinals, starts, memory, mail, marks, b, tile, finished, sent,
    )
}

// The stage at which the processor stands; 13 where it has no tiles left.
fn step(
    table: &Table,
    kept: &[u8],
    counts: &[u32; BLOCKS],
    ordinals: &[u32; MESSAGE_ENDS],
    starts: &[u32; MESSAGE_ENDS],
    source: &[u32],
    memory: &mut [u32],
    mail: &mut [u32],
    progress: &[u32],
    marks: &mut [u8],
    b: usize,
) -> Result<Progress, Refusal>
    requires tables { Tables table.now b kept.now counts.now ordinals.now starts.now }
    requires may_step { MayStep (plan_of_table table.now) source.now (state_of memory.old mail.old progress.now marks.old) b }
    ensures { answer (number_of result) (state_of memory.new mail.new (records_after progress.now 0 result) marks.new)
        ≡ stepped_or (plan_of_table table.now) source.now
        (state_of memory.old mail.old progress.now marks.old) b }
{
    let finished = progress[0] as usize;
    if finished >= table.tile_count(b) {
        return Err(Refusal::Finished);
    }
    let tile = table.tile_at(b, finished);
    if progress[1] == 0 {
        return first_stage(
            table, kept, counts, ordinals, starts, memory, mail, progress, marks, b, tile,
        );
    }
    Ok(later_stage(
        table, kept, counts, ordinals, starts, source, memory, mail, progress, marks, b, tile,
    ))
}

// Lines 9 and 10 of its part, then the stage; its source has a word for each cell of its tiles.
fn turn_in(
    table: &Table,
    kept: &[u8],
    counts: &[u32; BLOCKS],
    ordinals: &[u32; MESSAGE_ENDS],
    starts: &[u32; MESSAGE_ENDS],
    messages: usize,
    many: usize,
    source: &[u32],
    memory: &mut [u32],
    mail: &mut [u32],
    progress: Flat,
    marks: &mut [u8],
    b: usize,
) -> Result<Progress, Refusal>
    requires tables { Tables table.now b kept.now counts.now ordinals.now starts.now
        × (Many table.now b messages many × (length progress.words ≡ 192)) }
    requires source_len { length source.now ≡ length (own_cells (plan_of_table table.now) b) }
    ensures { (records : List ℕ) → Flattens progress records
        → answer (number_of result) (state_of memory.new mail.new (records_after records 0 result) marks.new)
        ≡ turned_or (plan_of_table table.now) source.now (state_of memory.old mail.old records marks.old) b }
{
    check_areas(
        table, ordinals, starts, messages, many, memory, mail, progress, marks, b,
    )?;
    let words = progress.words;
    step(
        table,
        kept,
        counts,
        ordinals,
        starts,
        source,
        memory,
        mail,
        &words[..3],
        marks,
        b,
    )
}

// Line 9 of its source; then what is found once, and the rest.
fn take_turn(
    layout: &Layout,
    source: &[u32],
    memory: &mut [u32],
    mail: &mut [u32],
    progress: Flat,
    marks: &mut [u8],
    b: usize,
) -> Result<Progress, Refusal>
    requires routed { Routed layout.now.nest layout.now.sizes }
    requires low { b < processors layout.now.nest }
    requires words_len { length progress.words ≡ 192 }
    ensures { (records : List ℕ) → Flattens progress records
        → answer (number_of result) (state_of memory.new mail.new (records_after records 0 result) marks.new)
        ≡ turned_or (plan_of_layout layout.now) source.now (state_of memory.old mail.old records marks.old) b }
{
    if source.len() != own_count(layout, b) {
        return Err(Refusal::Area);
    }
    let cells = layout.sizes.cells;
    let mut lens = [0; TABLE_WORDS];
    let mut kept = [0u8; MOST_CELLS];
    let mut counts = [0u32; BLOCKS];
    let mut ordinals = [0u32; MESSAGE_ENDS];
    let mut starts = [0u32; MESSAGE_ENDS];
    let Prepared { table, messages } = prepare(layout, b, &mut lens, &mut ordinals, &mut starts);
    let many = keep_cells(&table, b, &mut kept[..cells], &mut counts);
    turn_in(
        &table,
        &kept[..cells],
        &counts,
        &ordinals,
        &starts,
        messages,
        many,
        source,
        memory,
        mail,
        progress,
        marks,
        b,
    )
}

// One turn of the processor.
pub fn turn(
    encoded: &[u8],
    route: u32,
    source: &[u32],
    memory: &mut [u32],
    mail: &mut [u32],
    progress: Flat,
    marks: &mut [u8],
    processor: u32,
) -> Result<Progress, Refusal>
    requires { length progress.words ≡ 192 }
    ensures { (records : List ℕ) → Flattens progress records
        → answer (number_of result) (state_of memory.new mail.new (records_after records 0 result) marks.new)
        ≡ part_turn_call encoded.now route source.now
        (state_of memory.old mail.old records marks.old) processor }
{
    let layout = match open(encoded, route, processor) {
        Ok(layout) => layout,
        Err(refusal) => return Err(refusal),
    };
    take_turn(
        &layout,
        source,
        memory,
        mail,
        progress,
        marks,
        processor as usize,
    )
}
