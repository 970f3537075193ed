// The stages on a part: kept cells' words by their ranks, mail and marks where the processor's two tables say. The part after is that of the machine's
// areas after the machine's stage.
ghost use Rattle.std.specs.Prelude.{◌≡◌, ℕ, ◌+◌, ◌<◌, ◌≤◌, List, [], length, slice_index};
ghost use Rattle.base.specs.Lists.{sublist, put, set_all, all_at, unpack, pack, store_all};
ghost use Rattle.machine.specs.Plan.{held_by, sends_of, dues_of};
ghost use Rattle.machine.specs.Machine.{state_of, carry_out, gather, calculate, send};
ghost use Rattle.nest.specs.Nest.{processors};
ghost use Rattle.tables.specs.Tables.{FoundIn};
ghost use Rattle.tables.specs.Given.{plan_of_table};
ghost use Rattle.stages.specs.Progress.{set_record};
ghost use Rattle.network.specs.Own.{keeps, own_cells, kept_cells, source_of};
ghost use Rattle.part.specs.Part.{all_of};
ghost use Rattle.part_calls.specs.front.Calls.{from_part, to_part};
ghost use Rattle.part_calls.specs.front.Given.{Cells};
ghost use Rattle.part_calls.specs.turn.Step.{Lengths, Tables, Ranked, Keeping, unpack_from};

use crate::front::own_cells;
use nest::MOST_CELLS;
use part::sides::gathered;
use part::{MESSAGE_ENDS, give, take};
use rank_index::BLOCKS;
use records::Progress;
use stages::next_record;
use tables::Table;
use tables::message_cells::cells_of;
use tables::scans::MessageSlot;

// ---- messages by the two tables

// All messages due at the tile are delivered.
pub fn ready(table: &Table, ordinals: &[u32; MESSAGE_ENDS], marks: &[u8], tile: usize) -> bool
    requires planned { tile < (plan_of_table table.now).tiles }
    requires ranked { Ranked (plan_of_table table.now) ordinals.now (dues_of (plan_of_table table.now) tile) (length marks.now) }
    ensures { result ≡ all_at marks.now 2 (pack ordinals.now (dues_of (plan_of_table table.now) tile)) }
{
    let n = table.count_at(tile, 1);
    for j in 0..n {
        let place = table.nth_at(tile, 1, j);
        let number = place.number;
        let rank = ordinals[number] as usize;
        if marks[rank] != 2 {
            return false;
        }
    }
    true
}

// The words of one message, from where they begin in the mail, into the part.
fn take_from(
    table: &Table,
    kept: &[u8],
    counts: &[u32; BLOCKS],
    place: MessageSlot,
    at: usize,
    memory: &mut [u32],
    mail: &[u32],
    b: usize,
)
    requires planned { FoundIn table.now.layout.sizes.route table.now.layout.nest place.number place }
    requires cells { Cells table.now.layout.nest (keeps (plan_of_table table.now) b) kept.now counts.now × Keeping (plan_of_table table.now) b place.number }
    requires memory_len { (length memory.old ≡ length (kept_cells (plan_of_table table.now) b)) × (at + place.words ≤ length mail.now) }
    ensures { memory.new
        ≡ pack (unpack (all_of (plan_of_table table.now) b memory.old) (held_by (plan_of_table table.now) place.number)
        (sublist mail.now at place.words)) (kept_cells (plan_of_table table.now) b) }
{
    let words = place.words;
    let end = at + words;
    let mut cells = [0u16; MOST_CELLS];
    cells_of(&table.layout, table.lens, place, &mut cells[..words]);
    take(kept, counts, &cells[..words], memory, &mail[at..end]);
}

// All messages due at the tile, into the part; each is then taken.
fn gather(
    table: &Table,
    kept: &[u8],
    counts: &[u32; BLOCKS],
    ordinals: &[u32; MESSAGE_ENDS],
    starts: &[u32; MESSAGE_ENDS],
    memory: &mut [u32],
    mail: &[u32],
    marks: &mut [u8],
    b: usize,
    tile: usize,
)
    requires tables { Tables table.now b kept.now counts.now ordinals.now starts.now
        × Lengths (plan_of_table table.now) b memory.old mail.now marks.old }
    requires tile_bound { (tile < (plan_of_table table.now).tiles) × ((plan_of_table table.now).processor_of tile ≡ b) }
    ensures { (memory.new
        ≡ pack (unpack_from (plan_of_table table.now) starts.now mail.now
        (all_of (plan_of_table table.now) b memory.old) (dues_of (plan_of_table table.now) tile)) (kept_cells (plan_of_table table.now) b))
        × (marks.new ≡ set_all marks.old (pack ordinals.now (dues_of (plan_of_table table.now) tile)) 3) }
{
    let n = table.count_at(tile, 1);
    for j in 0..n {
        let place = table.nth_at(tile, 1, j);
        let number = place.number;
        let at = starts[number] as usize;
        take_from(table, kept, counts, place, at, memory, mail, b);
        let rank = ordinals[number] as usize;
        gathered(marks, rank);
    }
}

// The words of one message, from the part to where they begin in the mail.
fn put_in(
    table: &Table,
    kept: &[u8],
    counts: &[u32; BLOCKS],
    place: MessageSlot,
    at: usize,
    memory: &[u32],
    mail: &mut [u32],
    b: usize,
)
    requires planned { FoundIn table.now.layout.sizes.route table.now.layout.nest place.number place }
    requires cells { Cells table.now.layout.nest (keeps (plan_of_table table.now) b) kept.now counts.now × Keeping (plan_of_table table.now) b place.number }
    requires memory_len { (length memory.now ≡ length (kept_cells (plan_of_table table.now) b)) × (at + place.words ≤ length mail.old) }
    ensures { mail.new
        ≡ put mail.old at
        (pack (all_of (plan_of_table table.now) b memory.now) (held_by (plan_of_table table.now) place.number)) }
{
    let words = place.words;
    let end = at + words;
    let mut cells = [0u16; MOST_CELLS];
    cells_of(&table.layout, table.lens, place, &mut cells[..words]);
    give(kept, counts, &cells[..words], memory, &mut mail[at..end]);
}

// ---- the stages

// Stage 0, all messages due being delivered.
pub fn gather_stage(
    table: &Table,
    kept: &[u8],
    counts: &[u32; BLOCKS],
    ordinals: &[u32; MESSAGE_ENDS],
    starts: &[u32; MESSAGE_ENDS],
    memory: &mut [u32],
    mail: &[u32],
    marks: &mut [u8],
    b: usize,
    tile: usize,
    finished: u32,
) -> Progress
    requires tables { Tables table.now b kept.now counts.now ordinals.now starts.now
        × Lengths (plan_of_table table.now) b memory.old mail.now marks.old }
    requires tile_bound { (tile < (plan_of_table table.now).tiles) × ((plan_of_table table.now).processor_of tile ≡ b) }
    ensures { (l : List ℕ) → length l ≡ 3 → finished ≡ slice_index l 0
        → state_of memory.new mail.now (set_record l 0 result) marks.new
        ≡ to_part (plan_of_table table.now) b (carry_out (plan_of_table table.now) []
        (from_part (plan_of_table table.now) b (state_of memory.old mail.now l marks.old)) b (gather tile)) }
{
    gather(
        table, kept, counts, ordinals, starts, memory, mail, marks, b, tile,
    );
    Progress {
        finished,
        stage: 1,
        sent: 0,
    }
}

// The tile's cells in the part; the words of its source stand by the marks of its own cells.
fn calculate_own(
    table: &Table,
    kept: &[u8],
    counts: &[u32; BLOCKS],
    source: &[u32],
    memory: &mut [u32],
    b: usize,
    tile: usize,
)
    requires planned { (b < processors table.now.layout.nest) × ((tile < (plan_of_table table.now).tiles)
        × (((plan_of_table table.now).processor_of tile ≡ b) × Cells table.now.layout.nest (keeps (plan_of_table table.now) b) kept.now counts.now)) }
    requires source_len { (length source.now ≡ length (own_cells (plan_of_table table.now) b))
        × (length memory.old ≡ length (kept_cells (plan_of_table table.now) b)) }
    ensures { memory.new
        ≡ pack (store_all ((plan_of_table table.now).value (source_of (plan_of_table table.now) b source.now))
        (all_of (plan_of_table table.now) b memory.old) ((plan_of_table table.now).cells_of tile))
        (kept_cells (plan_of_table table.now) b) }
{
    let cells = table.layout.sizes.cells;
    let mut owned = [0u8; MOST_CELLS];
    let mut tally = [0u32; BLOCKS];
    own_cells(&table.layout, b, &mut owned[..cells], &mut tally);
    crate::tile::calculate(
        table,
        kept,
        counts,
        &owned[..cells],
        &tally,
        source,
        memory,
        b,
        tile,
    );
}

// Stage 1.
pub fn calculate_stage(
    table: &Table,
    kept: &[u8],
    counts: &[u32; BLOCKS],
    ordinals: &[u32; MESSAGE_ENDS],
    starts: &[u32; MESSAGE_ENDS],
    source: &[u32],
    memory: &mut [u32],
    b: usize,
    tile: usize,
    finished: u32,
) -> Progress
    requires tables { Tables table.now b kept.now counts.now ordinals.now starts.now
        × (length memory.old ≡ length (kept_cells (plan_of_table table.now) b)) }
    requires tile_bound { (tile < (plan_of_table table.now).tiles) × (((plan_of_table table.now).processor_of tile ≡ b) × (finished < 16384)) }
    requires source_len { length source.now ≡ length (own_cells (plan_of_table table.now) b) }
    ensures { (mail l marks : List ℕ) → Lengths (plan_of_table table.now) b memory.old mail marks → length l ≡ 3 → finished ≡ slice_index l 0
        → state_of memory.new mail (set_record l 0 result) marks
        ≡ to_part (plan_of_table table.now) b (carry_out (plan_of_table table.now) (source_of (plan_of_table table.now) b source.now)
        (from_part (plan_of_table table.now) b (state_of memory.old mail l marks)) b (calculate tile)) }
{
    calculate_own(table, kept, counts, source, memory, b, tile);
    let n = table.count_at(tile, 0);
    next_record(finished, 0, n)
}

// Stage 2: the next message of the tile.
pub fn send_stage(
    table: &Table,
    kept: &[u8],
    counts: &[u32; BLOCKS],
    ordinals: &[u32; MESSAGE_ENDS],
    starts: &[u32; MESSAGE_ENDS],
    memory: &[u32],
    mail: &mut [u32],
    marks: &mut [u8],
    b: usize,
    tile: usize,
    finished: u32,
    sent: usize,
) -> Progress
    requires tables { Tables table.now b kept.now counts.now ordinals.now starts.now
        × Lengths (plan_of_table table.now) b memory.now mail.old marks.old }
    requires tile_bound { (tile < (plan_of_table table.now).tiles) × ((plan_of_table table.now).processor_of tile ≡ b) }
    requires finished_bound { (finished < 16384) × (sent < length (sends_of (plan_of_table table.now) tile)) }
    ensures { (l : List ℕ) → length l ≡ 3 → finished ≡ slice_index l 0 → sent ≡ slice_index l 2
        → state_of memory.now mail.new (set_record l 0 result) marks.new
        ≡ to_part (plan_of_table table.now) b (carry_out (plan_of_table table.now) []
        (from_part (plan_of_table table.now) b (state_of memory.now mail.old l marks.old)) b
        (send (slice_index (sends_of (plan_of_table table.now) tile) sent))) }
{
    let place = table.nth_at(tile, 0, sent);
    let number = place.number;
    let at = starts[number] as usize;
    put_in(table, kept, counts, place, at, memory, mail, b);
    let rank = ordinals[number] as usize;
    marks[rank] = 1;
    let n = table.count_at(tile, 0);
    next_record(finished, sent + 1, n)
}
