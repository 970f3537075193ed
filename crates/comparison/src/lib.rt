// A recipe swept both ways, over two sources and in two orders of turns, messages passed directly: what the second program of document 01
// writes, made in a lent space and handed to standard output.
#![tactic(auto)]

ghost use Rattle.std.specs.Prelude.{◌≡◌, true, ◌+◌, ◌*◌, ◌≤◌, ◌<◌, length, take};
ghost use Rattle.base.specs.Tests.{pick};
ghost use Rattle.machine.specs.Machine.{state_of};
ghost use Rattle.text.specs.Writing.{pen, write};
ghost use Rattle.comparison.specs.Agreement.{is_beyond, source_of, ran, outcome, compared};
ghost use Rattle.comparison.specs.Agreement.{ran_and_compared, Within};
ghost use Rattle.comparison.specs.Lines.{verdict_line, agrees_for, four_lines, comparison_text};

use crate::drive::Order;
use layout::Layout;
use plan::Route;
use records::RECORD_WORDS;
use std::io;

pub mod drive; // drive.rt: a run on the direct route, driven to its end by the offered calls

// What the areas of a run are made of.
#[derive(Clone, Copy)]
pub struct Extent {
    pub cells: u32,
    pub processors: u32,
    pub messages: u32,
    pub words: u32,
    pub steps: u32,
}

// One word a cell for each processor.
fn memory_words(cells: u32, processors: u32) -> u64
    ensures { result ≡ cells * processors }
{
    u64::from(cells) * u64::from(processors)
}

// A word of the source: 1, or the cell's number plus 1.
fn source_word(number: u32, counting: bool) -> u32
    ensures { result ≡ pick counting number 1 }
{
    if counting { number } else { 1 }
}

fn fill_source(source: &mut [u32], counting: bool)
    requires { length source.old ≤ 1024 }
    ensures { source.new ≡ source_of counting (length source.old) }
{
    for (c, word) in source.iter_mut().enumerate() {
        *word = source_word((c + 1) as u32, counting);
    }
}

// A fresh start, and the run driven to its end. Where the fresh start is refused so is every call after it, and the comparison says so.
fn run_whole(
    encoded: &[u8],
    source: &[u32],
    memories: &mut [u32],
    buffer: &mut [u32],
    progress: &mut [u32],
    status: &mut [u8],
    order: Order,
    steps: u32,
)
    ensures { state_of memories.new buffer.new progress.new status.new
        ≡ ran encoded.now source.now order steps
        (state_of memories.old buffer.old progress.old status.old) }
{
    engine::fresh(encoded, 0, source, memories, buffer, progress, status);
    drive::drive(
        encoded, source, memories, buffer, progress, status, order, steps,
    );
}

// What the run left, collected, and the sequential sweep: whether both were done and are the same.
fn compare(
    encoded: &[u8],
    source: &[u32],
    memories: &[u32],
    buffer: &[u32],
    progress: &[u32],
    status: &[u8],
    grid: &mut [u32],
    swept: &mut [u32],
) -> bool
    ensures { outcome (state_of memories.now buffer.now progress.now status.now) grid.new
        swept.new result
        ≡ compared encoded.now source.now
        (state_of memories.now buffer.now progress.now status.now) grid.old
        swept.old }
{
    let collecting = engine::collect(encoded, 0, source, memories, buffer, progress, status, grid);
    let sweeping = engine::sweep(encoded, source, swept);
    if collecting != 0 || sweeping != 0 {
        return false;
    }
    base::same(grid, swept)
}

// One run in the areas lent, collected and compared.
fn agrees(
    encoded: &[u8],
    source: &[u32],
    memories: &mut [u32],
    buffer: &mut [u32],
    progress: &mut [u32],
    status: &mut [u8],
    grid: &mut [u32],
    swept: &mut [u32],
    order: Order,
    steps: u32,
) -> bool
    ensures { outcome (state_of memories.new buffer.new progress.new status.new) grid.new
        swept.new result
        ≡ ran_and_compared encoded.now source.now order steps
        (state_of memories.old buffer.old progress.old status.old) grid.old
        swept.old }
{
    run_whole(
        encoded, source, memories, buffer, progress, status, order, steps,
    );
    compare(
        encoded, source, memories, buffer, progress, status, grid, swept,
    )
}

// Whether they agree, in areas of zeros, of which the first words are lent, as many as the recipe has. The areas hold every recipe of at most
// 1,024 cells with at most 4,096 words of memories: a message is a tile and one of at most 7 directions, and a cell is at most once in each.
fn verdict(encoded: &[u8], extent: Extent, counting: bool, falling: bool) -> bool
    requires { Within encoded.now extent }
    ensures value { result ≡ agrees_for encoded.now counting falling }
    ensures value_2 { result ≡ true }
{
    let Extent {
        cells,
        processors,
        messages,
        words,
        steps,
    } = extent;
    let c = cells as usize;
    let m = memory_words(cells, processors) as usize;
    let w = words as usize;
    let p = 3 * processors as usize;
    let s = messages as usize;
    let order = Order {
        processors,
        messages,
        falling,
    };
    let mut source = [0u32; 1024];
    fill_source(&mut source[..c], counting);
    let mut memories = [0u32; 4096];
    let mut buffer = [0u32; 7168];
    let mut progress = [0u32; RECORD_WORDS];
    let mut status = [0u8; 7168];
    let mut grid = [0u32; 1024];
    let mut swept = [0u32; 1024];
    agrees(
        encoded,
        &source[..c],
        &mut memories[..m],
        &mut buffer[..w],
        &mut progress[..p],
        &mut status[..s],
        &mut grid[..c],
        &mut swept[..c],
        order,
        steps,
    )
}

// ---- the lines, put in a lent space from a place on

// `differ` is never written: of a recipe within the limits `verdict` is proved to be true.
fn put_verdict(
    space: &mut [u8],
    at: usize,
    encoded: &[u8],
    extent: Extent,
    counting: bool,
    falling: bool,
) -> usize
    requires { (at + 7 ≤ 4294967295) × Within encoded.now extent }
    ensures space_after { pen result space.new ≡ write (pen at space.old) (verdict_line (agrees_for encoded.now counting falling)) }
    ensures upper_bound { result ≤ at + 7 }
{
    if verdict(encoded, extent, counting, falling) {
        return text::put_bytes(space, at, b"agree\n");
    }
    text::put_bytes(space, at, b"differ\n")
}

// The first source's two lines, then the second's.
fn put_four(space: &mut [u8], encoded: &[u8], extent: Extent) -> usize
    requires { Within encoded.now extent }
    ensures space_after { pen result space.new ≡ write (pen 0 space.old) (four_lines encoded.now) }
    ensures upper_bound { result ≤ 28 }
{
    let a = put_verdict(space, 0, encoded, extent, false, false);
    let b = put_verdict(space, a, encoded, extent, false, true);
    let c = put_verdict(space, b, encoded, extent, true, false);
    put_verdict(space, c, encoded, extent, true, true)
}

// Counts are far below the limit.
fn narrow(x: usize) -> u32
    ensures { x < 4294967296 → result ≡ x }
{
    u32::try_from(x).unwrap_or(u32::MAX)
}

fn is_beyond(cells: u32, processors: u32) -> bool
    ensures { result ≡ is_beyond cells processors }
{
    cells > 1024 || memory_words(cells, processors) > 4096
}

// The lines of a recipe: how many bytes they have, each written where the space has room.
pub fn put_lines(space: &mut [u8], encoded: &[u8]) -> usize
    ensures space_after { pen result space.new ≡ write (pen 0 space.old) (comparison_text encoded.now) }
    ensures upper_bound { result ≤ 28 }
{
    if encoded.len() > 512 {
        return plan_text::put_refused(space, 1);
    }
    let nest = match reader::read(encoded) {
        Ok(nest) => nest,
        Err(refusal) => return plan_text::put_refused(space, refusal.number()),
    };
    let layout = Layout::of(nest, Route::Direct);
    let cells = narrow(layout.sizes.cells);
    let processors = narrow(layout.sizes.processors);
    if is_beyond(cells, processors) {
        return text::put_bytes(space, 0, b"beyond\n");
    }
    let figures = summary::summary(encoded, 0);
    let extent = Extent {
        cells,
        processors,
        messages: figures.messages,
        words: figures.words,
        steps: figures.steps,
    };
    put_four(space, encoded, extent)
}

// The lines at the front of a space that has room for all of them.
pub fn write_lines(space: &mut [u8], encoded: &[u8]) -> usize
    requires { length space.old ≡ 28 }
    ensures space_after { take result space.new ≡ comparison_text encoded.now }
    ensures upper_bound { result ≤ 28 }
{
    put_lines(space, encoded)
}

// The lines, made in the space and handed to standard output: whether all of them were written.
fn print_by(rt: &impl Print, space: &mut [u8], encoded: &[u8]) -> io::Result<()>
    requires { length space.old ≡ 28 }
{
    let length = write_lines(space, encoded);
    rt.write_all(&space[..length])
}

// What the second program writes for these bytes; whether all of it was written.
pub fn print(rt: &impl Print, encoded: &[u8]) -> io::Result<()> {
    let mut space = [0u8; 28];
    print_by(rt, &mut space, encoded)
}
