// The driver by rounds: in a round every processor that could gather does its whole tile, then all mail in flight is delivered. The nest's
// table is made once, and a processor is tested when its place comes, which changes nothing (rounds/proofs/AsItGoes).
#![tactic(auto)]

ghost use Rattle.std.specs.Prelude.{◌≡◌, ◌*◌, ◌<◌, length};
ghost use Rattle.base.specs.Lists.{set_all, all_at};
ghost use Rattle.machine.specs.Plan.{count, words, sender_of, sends_of, dues_of};
ghost use Rattle.machine.specs.Machine.{state_of, unpack_all, fresh};
ghost use Rattle.base.specs.Refusals.{number_of};
ghost use Rattle.nest.specs.Nest.{cells, processors};
ghost use Rattle.layout.specs.Laid.{plan_of_layout};
ghost use Rattle.tables.specs.Given.{plan_of_table};
ghost use Rattle.tables.specs.Tables.{FoundIn};
ghost use Rattle.rounds.specs.ByState.{PlanAreas, after_tile, delivered, after_round};
ghost use Rattle.rounds.specs.Rounds.{told, rounds, after_rounds, tile_round, rounds_to};
ghost use Rattle.engine.specs.Calls.{answer};
ghost use Rattle.schedule.specs.Index.{Listed};
ghost use Rattle.schedule.specs.Given.{Mailed, Indexed, Dued, put_all, memory_then, status_then, mark_then, rounds_told, TellsTo, last_before};
ghost use Rattle.schedule.specs.Calls.{rounds_call, rounds_of_call};

pub mod index; // index.rt: the messages of a plan by number and by tile

use base::refusal::{self, Refusal};
use engine::inner::areas_fit;
use engine::store_record;
use index::{chain_ends, first, list, next, spot};
use layout::Layout;
use recipe::open;
use records::Progress;
use stages::{calculate, put_message, take_message, tiles_left};
use tables::scans::MessageSlot;
use tables::{TABLE_WORDS, Table};

// Of each message the next one of its tile, 7,168 at most, and of each of 1,024 tiles its first.
pub const CHAIN_WORDS: usize = 8192;

// Of each message, 7,168 at most, its slot, and behind all of these its offset.
pub const SPOT_WORDS: usize = 14336;

// All messages due at the tile are delivered.
fn ready(layout: &Layout, dues: &[u16; CHAIN_WORDS], status: &[u8], t: usize) -> bool
    requires { Mailed layout.now.nest layout.now.sizes 1 dues.now status.now × (t < 1024) }
    ensures { result ≡ all_at status.now 2 (dues_of (plan_of_layout layout.now) t) }
{
    let mut m = first(&layout.nest, &layout.sizes, dues, t, 1);
    // along the tile's chain, which ends beyond the last message
    while m < status.len() {
        if status[m] != 2 {
            return false;
        }
        m = next(&layout.nest, &layout.sizes, dues, t, 1, m);
    }
    true
}

// All messages due at the tile, into one processor's memory; each is then taken.
fn gather(
    table: &Table,
    spots: &[u32; SPOT_WORDS],
    dues: &[u16; CHAIN_WORDS],
    memory: &mut [u32],
    buffer: &[u32],
    status: &mut [u8],
    t: usize,
)
    requires planned { Listed table.now.layout.sizes.route table.now.layout.nest table.now.lens.now spots.now }
    requires mailed { Mailed table.now.layout.nest table.now.layout.sizes 1 dues.now status.old × (t < 1024) }
    requires memory_len { (length memory.old ≡ cells table.now.layout.nest) × (length buffer.now ≡ words (plan_of_table table.now)) }
    ensures { (memory.new
        ≡ unpack_all (plan_of_table table.now) buffer.now memory.old (dues_of (plan_of_table table.now) t))
        × (status.new ≡ set_all status.old (dues_of (plan_of_table table.now) t) 3) }
{
    let mut m = first(&table.layout.nest, &table.layout.sizes, dues, t, 1);
    // along the tile's chain, which ends beyond the last message
    while m < status.len() {
        let place = spot(table, spots, m);
        take_message(table, memory, buffer, place);
        status[m] = 3;
        m = next(&table.layout.nest, &table.layout.sizes, dues, t, 1, m);
    }
}

// All messages that the tile sends, from one processor's memory; each is then in flight.
fn send(
    table: &Table,
    spots: &[u32; SPOT_WORDS],
    sends: &[u16; CHAIN_WORDS],
    memory: &[u32],
    buffer: &mut [u32],
    status: &mut [u8],
    t: usize,
)
    requires planned { Listed table.now.layout.sizes.route table.now.layout.nest table.now.lens.now spots.now }
    requires mailed { Mailed table.now.layout.nest table.now.layout.sizes 0 sends.now status.old × (t < 1024) }
    requires memory_len { (length memory.now ≡ cells table.now.layout.nest) × (length buffer.old ≡ words (plan_of_table table.now)) }
    ensures { (buffer.new
        ≡ put_all (plan_of_table table.now) memory.now buffer.old (sends_of (plan_of_table table.now) t))
        × (status.new ≡ set_all status.old (sends_of (plan_of_table table.now) t) 1) }
{
    let mut m = first(&table.layout.nest, &table.layout.sizes, sends, t, 0);
    // along the tile's chain, which ends beyond the last message
    while m < status.len() {
        let place = spot(table, spots, m);
        put_message(table, memory, buffer, place);
        status[m] = 1;
        m = next(&table.layout.nest, &table.layout.sizes, sends, t, 0, m);
    }
}

// A whole tile, its mail being there, in one processor's memory.
fn whole_tile(
    table: &Table,
    spots: &[u32; SPOT_WORDS],
    sends: &[u16; CHAIN_WORDS],
    dues: &[u16; CHAIN_WORDS],
    source: &[u32],
    memory: &mut [u32],
    buffer: &mut [u32],
    status: &mut [u8],
    t: usize,
)
    requires indexed { Indexed table.now.layout.nest table.now.layout.sizes table.now.lens.now spots.now sends.now dues.now × (t < (plan_of_table table.now).tiles) }
    requires source_len { (length source.now ≡ cells table.now.layout.nest) × (length memory.old ≡ cells table.now.layout.nest) }
    requires buffer_len { (length buffer.old ≡ words (plan_of_table table.now)) × (length status.old ≡ count (plan_of_table table.now)) }
    ensures { (memory.new ≡ memory_then (plan_of_table table.now) source.now buffer.old memory.old t)
        × ((buffer.new ≡ put_all (plan_of_table table.now) memory.new buffer.old (sends_of (plan_of_table table.now) t))
        × (status.new ≡ status_then (plan_of_table table.now) status.old t)) }
{
    gather(table, spots, dues, memory, buffer, status, t);
    calculate(table, source, memory, t);
    send(table, spots, sends, memory, buffer, status, t);
}

// A processor's part of a round: its next tile, if it could gather for it. Only its own part of the memories is lent on.
fn next_tile(
    table: &Table,
    spots: &[u32; SPOT_WORDS],
    sends: &[u16; CHAIN_WORDS],
    dues: &[u16; CHAIN_WORDS],
    source: &[u32],
    memories: &mut [u32],
    buffer: &mut [u32],
    progress: &mut [u32],
    status: &mut [u8],
    b: usize,
)
    requires indexed { Indexed table.now.layout.nest table.now.layout.sizes table.now.lens.now spots.now sends.now dues.now × ((length source.now ≡ cells table.now.layout.nest) × (b < processors table.now.layout.nest)) }
    requires plan_areas { PlanAreas (plan_of_table table.now) (state_of memories.old buffer.old progress.old status.old) }
    ensures { state_of memories.new buffer.new progress.new status.new
        ≡ after_tile (plan_of_table table.now) source.now
        (state_of memories.old buffer.old progress.old status.old) b }
{
    let finished = progress[3 * b];
    let i = finished as usize;
    let n = table.tile_count(b);
    if i >= n {
        return;
    }
    let t = table.tile_at(b, i);
    if !ready(&table.layout, dues, status, t) {
        return;
    }
    let cells = table.layout.sizes.cells;
    let base = b * cells;
    let end = base + cells;
    whole_tile(
        table,
        spots,
        sends,
        dues,
        source,
        &mut memories[base..end],
        buffer,
        status,
        t,
    );
    let after = Progress {
        finished: finished + 1,
        stage: 0,
        sent: 0,
    };
    store_record(progress, b, after);
}

// A mark once its mail is delivered.
fn mark_then(mark: u8) -> u8
    ensures { result ≡ mark_then mark }
{
    if mark == 1 { 2 } else { mark }
}

// All mail in flight delivered: every mark is stored, so that no test is waited for.
fn deliver_mail(status: &mut [u8])
    ensures { status.new ≡ delivered status.old }
{
    for mark in status.iter_mut() {
        *mark = mark_then(*mark);
    }
}

// A round: each processor's tile when its place comes, then the mail.
fn round(
    table: &Table,
    spots: &[u32; SPOT_WORDS],
    sends: &[u16; CHAIN_WORDS],
    dues: &[u16; CHAIN_WORDS],
    source: &[u32],
    memories: &mut [u32],
    buffer: &mut [u32],
    progress: &mut [u32],
    status: &mut [u8],
)
    requires indexed { Indexed table.now.layout.nest table.now.layout.sizes table.now.lens.now spots.now sends.now dues.now × (length source.now ≡ cells table.now.layout.nest) }
    requires plan_areas { PlanAreas (plan_of_table table.now) (state_of memories.old buffer.old progress.old status.old) }
    ensures { state_of memories.new buffer.new progress.new status.new
        ≡ after_round (plan_of_table table.now) source.now
        (state_of memories.old buffer.old progress.old status.old) }
{
    for b in 0..table.layout.sizes.processors {
        next_tile(
            table, spots, sends, dues, source, memories, buffer, progress, status, b,
        );
    }
    deliver_mail(status);
}

// All rounds from a fresh start, by the index: how many there were.
fn rounds_by(
    table: &Table,
    spots: &[u32; SPOT_WORDS],
    sends: &[u16; CHAIN_WORDS],
    dues: &[u16; CHAIN_WORDS],
    source: &[u32],
    memories: &mut [u32],
    buffer: &mut [u32],
    progress: &mut [u32],
    status: &mut [u8],
) -> u32
    requires indexed { Indexed table.now.layout.nest table.now.layout.sizes table.now.lens.now spots.now sends.now dues.now × (length source.now ≡ cells table.now.layout.nest) }
    requires status_value { state_of memories.old buffer.old progress.old status.old ≡ fresh (plan_of_table table.now) }
    ensures { (result ≡ rounds (plan_of_table table.now))
        × (state_of memories.new buffer.new progress.new status.new
        ≡ after_rounds (plan_of_table table.now) source.now (rounds (plan_of_table table.now))) }
{
    let mut done: u32 = 0;
    // how many rounds there are shows at the end alone
    while tiles_left(table, progress) {
        round(
            table, spots, sends, dues, source, memories, buffer, progress, status,
        );
        done += 1;
    }
    done
}

// All rounds from a fresh start: how many there were. The messages are listed and chained once.
pub fn all_rounds(
    table: &Table,
    source: &[u32],
    memories: &mut [u32],
    buffer: &mut [u32],
    progress: &mut [u32],
    status: &mut [u8],
) -> u32
    requires planned { length source.now ≡ cells table.now.layout.nest }
    requires status_value { state_of memories.old buffer.old progress.old status.old ≡ fresh (plan_of_table table.now) }
    ensures { (result ≡ rounds (plan_of_table table.now))
        × (state_of memories.new buffer.new progress.new status.new
        ≡ after_rounds (plan_of_table table.now) source.now (rounds (plan_of_table table.now))) }
{
    let mut spots = [0u32; SPOT_WORDS];
    let messages = list(table, &mut spots);
    let mut sends = [0u16; CHAIN_WORDS];
    chain_ends(table, &spots, &mut sends, messages, 0);
    let mut dues = [0u16; CHAIN_WORDS];
    chain_ends(table, &spots, &mut dues, messages, 1);
    rounds_by(
        table, &spots, &sends, &dues, source, memories, buffer, progress, status,
    )
}

// What the driver tells: its number and the rounds, 0 at a refusal.
#[repr(C)]
#[derive(Clone, Copy)]
pub struct Driven {
    pub number: u32,
    pub rounds: u32,
}

// The driver by rounds, on the direct route: a fresh start, then rounds to the run's end.
fn drive(
    encoded: &[u8],
    source: &[u32],
    memories: &mut [u32],
    buffer: &mut [u32],
    progress: &mut [u32],
    status: &mut [u8],
) -> Result<u32, Refusal>
    ensures { answer (number_of result) (told (rounds_told result) (state_of memories.new buffer.new progress.new status.new))
        ≡ rounds_call encoded.now source.now
        (state_of memories.old buffer.old progress.old status.old) }
{
    let mut lens = [0; TABLE_WORDS];
    let table = open(encoded, 0, &mut lens)?;
    if !areas_fit(&table, source, memories, buffer, progress.len(), status) {
        return Err(Refusal::Area);
    }
    memories.fill(0);
    buffer.fill(0);
    progress.fill(0);
    status.fill(0);
    Ok(all_rounds(&table, source, memories, buffer, progress, status))
}

// The same, as C is given it.
pub fn run(
    encoded: &[u8],
    source: &[u32],
    memories: &mut [u32],
    buffer: &mut [u32],
    progress: &mut [u32],
    status: &mut [u8],
) -> Driven
    ensures { answer result.number (told result.rounds (state_of memories.new buffer.new progress.new status.new))
        ≡ rounds_call encoded.now source.now
        (state_of memories.old buffer.old progress.old status.old) }
{
    match drive(encoded, source, memories, buffer, progress, status) {
        Ok(rounds) => Driven { number: 0, rounds },
        Err(refusal) => Driven {
            number: refusal.number(),
            rounds: 0,
        },
    }
}

// A tile's processor.
fn processor_at(table: &Table, tile: usize) -> usize
    requires { tile < (plan_of_table table.now).tiles }
    ensures { (result ≡ (plan_of_table table.now).processor_of tile) × (result < processors table.now.layout.nest) }
{
    if table.layout.nest.bounds == 0 {
        return table.layout.processor_of(tile);
    }
    tables::shaped_table::owner_of(table.layout.nest, table.lens, tile)
}

// The tile that sends a message.
fn sender_at(table: &Table, place: MessageSlot) -> usize
    requires { FoundIn table.now.layout.sizes.route table.now.layout.nest place.number place }
    ensures { result ≡ sender_of (plan_of_table table.now) place.number }
{
    place.slot / table.layout.sizes.ways
}

// A tile's round, from those of the tiles before it; `last` is that of its processor's previous tile, or 0.
fn round_at(
    table: &Table,
    spots: &[u32; SPOT_WORDS],
    dues: &[u16; CHAIN_WORDS],
    messages: usize,
    rounds: &[u32],
    tile: usize,
    last: u32,
) -> u32
    requires dued { Dued table.now.layout.nest table.now.layout.sizes table.now.lens.now spots.now dues.now messages × (tile < (plan_of_table table.now).tiles) }
    requires tells_to { TellsTo (plan_of_table table.now) rounds.now tile
        × (last ≡ last_before (plan_of_table table.now) ((plan_of_table table.now).processor_of tile) tile) }
    ensures { result ≡ tile_round (plan_of_table table.now) tile }
{
    let mut latest = last;
    let mut m = first(&table.layout.nest, &table.layout.sizes, dues, tile, 1);
    // along the tile's chain, which ends beyond the last message
    while m < messages {
        let place = spot(table, spots, m);
        let sender = sender_at(table, place);
        latest = latest.max(rounds[sender]);
        m = next(&table.layout.nest, &table.layout.sizes, dues, tile, 1, m);
    }
    latest + 1
}

// Each tile's round, by the messages due.
fn tell_by(
    table: &Table,
    spots: &[u32; SPOT_WORDS],
    dues: &[u16; CHAIN_WORDS],
    messages: usize,
    rounds: &mut [u32],
)
    requires { Dued table.now.layout.nest table.now.layout.sizes table.now.lens.now spots.now dues.now messages × (length rounds.old ≡ (plan_of_table table.now).tiles) }
    ensures { rounds.new ≡ rounds_to (plan_of_table table.now) (plan_of_table table.now).tiles }
{
    let mut lasts = [0u32; 64];
    for tile in 0..rounds.len() {
        let b = processor_at(table, tile);
        let round = round_at(table, spots, dues, messages, rounds, tile, lasts[b]);
        rounds[tile] = round;
        lasts[b] = round;
    }
}

// Each tile's round. The messages are listed, and chained by their takers, once.
fn tell_rounds(table: &Table, rounds: &mut [u32])
    requires { length rounds.old ≡ (plan_of_table table.now).tiles }
    ensures { rounds.new ≡ rounds_to (plan_of_table table.now) (plan_of_table table.now).tiles }
{
    let mut spots = [0u32; SPOT_WORDS];
    let messages = list(table, &mut spots);
    let mut dues = [0u16; CHAIN_WORDS];
    chain_ends(table, &spots, &mut dues, messages, 1);
    tell_by(table, &spots, &dues, messages, rounds);
}

// Each tile's round, told into one word a tile.
fn tell(encoded: &[u8], rounds: &mut [u32]) -> Result<(), Refusal>
    ensures { answer (number_of result) rounds.new ≡ rounds_of_call encoded.now rounds.old }
{
    let mut lens = [0; TABLE_WORDS];
    let direct = open(encoded, 0, &mut lens)?;
    if rounds.len() != direct.tiles_of() {
        return Err(Refusal::Area);
    }
    tell_rounds(&direct, rounds);
    Ok(())
}

// The same, as a number.
pub fn rounds_of(encoded: &[u8], rounds: &mut [u32]) -> u32
    ensures { answer result rounds.new ≡ rounds_of_call encoded.now rounds.old }
{
    refusal::number_of(&tell(encoded, rounds))
}
