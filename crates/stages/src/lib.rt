// The stages of a turn and the other work on lent areas below the engine's calls: each asks for areas of their lengths.
#![tactic(auto)]

ghost use Rattle.std.specs.Prelude.{◌≡◌, List, [], ℕ, ◌+◌, ◌*◌, ◌≤◌, ◌<◌, length, get_or, ltb, leb};
ghost use Rattle.base.specs.Tests.{pick, every, some};
ghost use Rattle.base.specs.Lists.{put, set_all, all_at, unpack, pack, store_all};
ghost use Rattle.machine.specs.Plan.{count, words, offset, held_by, sends_of, dues_of};
ghost use Rattle.machine.specs.Machine.{state_of, place_of, set_progress, fit_record, tiles_left, unpack_all, carry_out, gather, calculate, send, collected};
ghost use Rattle.nest.specs.Nest.{cells, processors};
ghost use Rattle.plan.specs.Messages.{box_plan};
ghost use Rattle.layout.specs.Laid.{plan_of_layout};
ghost use Rattle.layout.specs.Sizes.{Routed};
ghost use Rattle.tables.specs.Tables.{FoundIn};
ghost use Rattle.tables.specs.Given.{plan_of_table};
ghost use Rattle.stages.specs.Progress.{progress_only, set_record};

use base::copy_words;
use layout::Layout;
use records::Progress;
use tables::Table;
use tables::scans::MessageSlot;

// One message from its place in the buffer into one processor's memory.
pub fn take_message(table: &Table, memory: &mut [u32], buffer: &[u32], place: MessageSlot)
    requires sized { FoundIn table.now.layout.sizes.route table.now.layout.nest place.number place }
    requires memory_len { (length memory.old ≡ cells table.now.layout.nest) × (length buffer.now ≡ words (plan_of_table table.now)) }
    ensures { memory.new
        ≡ unpack memory.old (held_by (plan_of_table table.now) place.number)
        (place_of (plan_of_table table.now) buffer.now place.number) }
{
    let offset = place.offset;
    let end = offset + place.words;
    table.unpack(place, memory, &buffer[offset..end]);
}

// All messages due at the tile, into one processor's memory; each is then taken.
fn gather(table: &Table, memory: &mut [u32], buffer: &[u32], status: &mut [u8], tile: usize)
    requires sized { tile < (plan_of_table table.now).tiles }
    requires memory_len { (length memory.old ≡ cells table.now.layout.nest) × ((length buffer.now ≡ words (plan_of_table table.now))
        × (length status.old ≡ count (plan_of_table table.now))) }
    ensures { (memory.new
        ≡ unpack_all (plan_of_table table.now) buffer.now memory.old (dues_of (plan_of_table table.now) tile))
        × (status.new ≡ set_all status.old (dues_of (plan_of_table table.now) tile) 3) }
{
    let n = table.count_at(tile, 1);
    for j in 0..n {
        let place = table.nth_at(tile, 1, j);
        take_message(table, memory, buffer, place);
        status[place.number] = 3;
    }
}

// All messages due at the tile are delivered.
pub fn ready(table: &Table, status: &[u8], tile: usize) -> bool
    requires sized { tile < (plan_of_table table.now).tiles }
    requires status_len { length status.now ≡ count (plan_of_table table.now) }
    ensures { result ≡ all_at status.now 2 (dues_of (plan_of_table table.now) tile) }
{
    let n = table.count_at(tile, 1);
    for j in 0..n {
        let place = table.nth_at(tile, 1, j);
        if status[place.number] != 2 {
            return false;
        }
    }
    true
}

// Stage 0, all messages due being delivered. Only the processor's own part of the memories is lent on.
pub fn gather_stage(
    table: &Table,
    memories: &mut [u32],
    buffer: &[u32],
    status: &mut [u8],
    processor: usize,
    tile: usize,
    finished: u32,
) -> Progress
    requires sized { (processor < processors table.now.layout.nest) × (tile < (plan_of_table table.now).tiles) }
    requires memories_len { (length memories.old ≡ processors table.now.layout.nest * cells table.now.layout.nest) × ((length buffer.now ≡ words (plan_of_table table.now))
        × (length status.old ≡ count (plan_of_table table.now))) }
    ensures { (l : List ℕ) → finished ≡ get_or l (3 * processor) 0
        → state_of memories.new buffer.now (set_record l processor result) status.new
        ≡ carry_out (plan_of_table table.now) [] (state_of memories.old buffer.now l status.old) processor (gather tile) }
{
    let cells = table.layout.sizes.cells;
    let base = processor * cells;
    let end = base + cells;
    gather(table, &mut memories[base..end], buffer, status, tile);
    Progress {
        finished,
        stage: 1,
        sent: 0,
    }
}

// The record once `sent` of the tile's n messages are sent.
pub fn next_record(finished: u32, sent: usize, n: usize) -> Progress
    requires { (finished < 16384) × (n ≤ 7168) }
    ensures { (l : List ℕ) (b : ℕ) → set_record l b result ≡ pick (ltb sent n) (set_progress l b finished 2 sent) (set_progress l b (finished + 1) 0 0) }
{
    if sent < n {
        return Progress {
            finished,
            stage: 2,
            sent: sent as u32,
        };
    }
    Progress {
        finished: finished + 1,
        stage: 0,
        sent: 0,
    }
}

// The tile's cells, in one processor's memory.
pub fn calculate(table: &Table, source: &[u32], memory: &mut [u32], tile: usize)
    requires sized { tile < (plan_of_table table.now).tiles }
    requires source_len { (length source.now ≡ cells table.now.layout.nest) × (length memory.old ≡ cells table.now.layout.nest) }
    ensures { memory.new
        ≡ store_all ((plan_of_table table.now).value source.now) memory.old ((plan_of_table table.now).cells_of tile) }
{
    if table.layout.nest.bounds == 0 {
        values::calculate(&table.layout, source, memory, tile);
        return;
    }
    let number = tables::shaped_table::box_of(table.layout.nest, table.lens, tile);
    values::shaped_values::calculate(&table.layout, source, memory, number);
}

// Stage 1. Only the processor's own part of the memories is lent on.
pub fn calculate_stage(
    table: &Table,
    source: &[u32],
    memories: &mut [u32],
    processor: usize,
    tile: usize,
    finished: u32,
) -> Progress
    requires sized { (processor < processors table.now.layout.nest) × (tile < (plan_of_table table.now).tiles) }
    requires source_len { (length source.now ≡ cells table.now.layout.nest) × ((length memories.old ≡ processors table.now.layout.nest * cells table.now.layout.nest) × (finished < 16384)) }
    ensures { (buffer l status : List ℕ) → finished ≡ get_or l (3 * processor) 0
        → state_of memories.new buffer (set_record l processor result) status
        ≡ carry_out (plan_of_table table.now) source.now (state_of memories.old buffer l status) processor (calculate tile) }
{
    let cells = table.layout.sizes.cells;
    let base = processor * cells;
    let end = base + cells;
    calculate(table, source, &mut memories[base..end], tile);
    let n = table.count_at(tile, 0);
    next_record(finished, 0, n)
}

// One message from a processor's memory into its place in the buffer.
pub fn put_message(table: &Table, memory: &[u32], buffer: &mut [u32], place: MessageSlot)
    requires sized { FoundIn table.now.layout.sizes.route table.now.layout.nest place.number place }
    requires memory_len { (length memory.now ≡ cells table.now.layout.nest) × (length buffer.old ≡ words (plan_of_table table.now)) }
    ensures { buffer.new
        ≡ put buffer.old (offset (plan_of_table table.now).messages place.number)
        (pack memory.now (held_by (plan_of_table table.now) place.number)) }
{
    let offset = place.offset;
    let end = offset + place.words;
    table.pack(place, &mut buffer[offset..end], memory);
}

// Stage 2: the next message of the tile.
pub fn send_stage(
    table: &Table,
    memories: &[u32],
    buffer: &mut [u32],
    status: &mut [u8],
    processor: usize,
    tile: usize,
    finished: u32,
    sent: usize,
) -> Progress
    requires sized { (processor < processors table.now.layout.nest) × (tile < (plan_of_table table.now).tiles) }
    requires memories_len { (length memories.now ≡ processors table.now.layout.nest * cells table.now.layout.nest) × ((length buffer.old ≡ words (plan_of_table table.now))
        × (length status.old ≡ count (plan_of_table table.now))) }
    requires finished_bound { (finished < 16384) × (sent < length (sends_of (plan_of_table table.now) tile)) }
    ensures { (l : List ℕ) → finished ≡ get_or l (3 * processor) 0 → sent ≡ get_or l (3 * processor + 2) 0
        → state_of memories.now buffer.new (set_record l processor result) status.new
        ≡ carry_out (plan_of_table table.now) [] (state_of memories.now buffer.old l status.old) processor
        (send (get_or (sends_of (plan_of_table table.now) tile) (get_or l (3 * processor + 2) 0) 0)) }
{
    let cells = table.layout.sizes.cells;
    let base = processor * cells;
    let end = base + cells;
    let place = table.nth_at(tile, 0, sent);
    put_message(table, &memories[base..end], buffer, place);
    status[place.number] = 1;
    let n = table.count_at(tile, 0);
    next_record(finished, sent + 1, n)
}

// The record of one processor is fit.
fn fit_record(table: &Table, progress: &[u32], processor: usize) -> bool
    requires { 3 * processor + 2 < length progress.now }
    ensures { result ≡ fit_record (plan_of_table table.now) (progress_only progress.now) processor }
{
    let finished = progress[3 * processor] as usize;
    let stage = progress[3 * processor + 1];
    let sent = progress[3 * processor + 2] as usize;
    let n = table.tile_count(processor);
    if finished < n {
        if stage == 2 {
            let tile = table.tile_at(processor, finished);
            return sent < table.count_at(tile, 0);
        }
        return stage < 2 && sent == 0;
    }
    finished == n && stage == 0 && sent == 0
}

// All records are fit.
pub fn fit_records(table: &Table, progress: &[u32]) -> bool
    requires { length progress.now ≡ 3 * processors table.now.layout.nest }
    ensures { result ≡ every (fit_record (plan_of_table table.now) (progress_only progress.now)) (processors table.now.layout.nest) }
{
    for b in 0..table.layout.sizes.processors {
        if !fit_record(table, progress, b) {
            return false;
        }
    }
    true
}

// All marks are fit.
pub fn fit_status(status: &[u8]) -> bool
    ensures { result ≡ every (λ m. leb (get_or status.now m 0) 3) (length status.now) }
{
    status.iter().all(|&mark| mark <= 3)
}

// Some processor has tiles left.
pub fn tiles_left(table: &Table, progress: &[u32]) -> bool
    requires { length progress.now ≡ 3 * processors table.now.layout.nest }
    ensures { result ≡ some (tiles_left (plan_of_table table.now) (progress_only progress.now)) (processors table.now.layout.nest) }
{
    for b in 0..table.layout.sizes.processors {
        let finished = progress[3 * b] as usize;
        let all = table.tile_count(b);
        if finished < all {
            return true;
        }
    }
    false
}

// Without bounds: each cell from the memory of its tile's processor. The last dimension is never spread, so a row has one processor.
fn copy_box(layout: &Layout, memories: &[u32], grid: &mut [u32])
    requires { (length memories.now ≡ processors layout.now.nest * cells layout.now.nest) × (length grid.old ≡ cells layout.now.nest) }
    ensures { grid.new ≡ collected (box_plan layout.now.sizes.route layout.now.nest) (state_of memories.now [] [] []) }
{
    let cells = layout.sizes.cells;
    let width = layout.nest.lengths[layout.nest.dimensions - 1];
    for c in (0..cells).step_by(width) {
        let tile = layout.tile_of(c);
        let b = layout.processor_of(tile);
        let from = b * cells + c;
        let to = from + width;
        let end = c + width;
        copy_words(&mut grid[c..end], &memories[from..to]);
    }
}

// Each cell of the shape from the memory of its tile's processor; the others are the boundary.
pub fn copy_cells(layout: &Layout, memories: &[u32], grid: &mut [u32])
    requires routed { Routed layout.now.nest layout.now.sizes }
    requires memories_len { (length memories.now ≡ processors layout.now.nest * cells layout.now.nest) × (length grid.old ≡ cells layout.now.nest) }
    ensures { grid.new ≡ collected (plan_of_layout layout.now) (state_of memories.now [] [] []) }
{
    if layout.nest.bounds == 0 {
        copy_box(layout, memories, grid);
        return;
    }
    values::shaped_values::copy_cells(layout, memories, grid);
}
