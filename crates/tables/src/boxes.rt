// The table of message lengths of a nest without bounds, filled once in a call: numbers, offsets and totals are scans of it, sends and
// dues one slot along each way.
ghost use Rattle.std.specs.Prelude.{◌≡◌, ℕ, ◌+◌, ◌*◌, ◌≤◌, ◌<◌, length, get_or, count_by, ltb, IfSome};
ghost use Rattle.std.specs.Option.{unwrap_or};
ghost use Rattle.nest.specs.Nest.{box_tiles};
ghost use Rattle.plan.specs.Messages.{ways, slots, slot_parcel, box_plan};
ghost use Rattle.layout.specs.Sizes.{Stepped};
ghost use Rattle.tables.specs.boxes.Table.{Table, Filling, Likes, Twins, Only, Ends, FoundAt, at_end};

use crate::TABLE_WORDS;
use crate::scans::{MessageSlot, message_of};
use layout::Layout;
use parcels::{one, two_before};

// So many tiles one after the other, each with parcels as long as those of the tile so far before it.
#[derive(Clone, Copy)]
struct Run {
    back: usize,
    tiles: usize,
}

// How many places along a dimension, from one on, have another before them, or two where two are asked for, and after them another of
// full length.
fn places_like(at: usize, two: bool, tiling: usize, length: usize) -> usize
    requires { (at ≤ 1024) × ((1 ≤ tiling) × (length ≤ 1024)) }
    ensures { Likes at two tiling length result }
{
    if at <= one(two) {
        return 0;
    }
    let whole = length / tiling;
    if whole < at + 2 {
        return 0;
    }
    whole - 1 - at
}

// The tiles from one on that have twins equally far before them: only at the ends of a dimension do lengths change, so that one tile back
// along the last dimension that allows it will do, up to where that dimension no longer does.
fn run_from(layout: &Layout, tile: usize) -> Option<Run>
    requires { tile < box_tiles layout.now.nest }
    ensures { IfSome result (λ run. Twins layout.now.sizes.route layout.now.nest tile run.back run.tiles × (0 < run.tiles)) }
{
    let across = layout.sizes.across;
    let tiling = layout.nest.tiling;
    let lengths = layout.nest.lengths;
    let route = layout.sizes.route;
    let two = two_before(layout.nest, route);
    let mut rest = tile;
    let mut stride = 1;
    for j in (0..layout.nest.dimensions).rev() {
        let n = across[j];
        let places = places_like(rest % n, j < two, tiling[j], lengths[j]);
        if places > 0 {
            return Some(Run {
                back: stride,
                tiles: (rest + places) * stride - tile,
            });
        }
        rest /= n;
        stride *= n;
    }
    None
}

// The length of a slot's parcel, as that of the slot so far before it.
fn length_back(
    layout: &Layout,
    lens: &[u16; TABLE_WORDS],
    tile: usize,
    run: Run,
    slot: usize,
) -> u16
    requires sized { Twins layout.now.sizes.route layout.now.nest tile run.back run.tiles × Filling layout.now.sizes.route layout.now.nest lens.now slot }
    requires ways_bound { (tile * layout.now.sizes.ways ≤ slot) × (slot < (tile + run.tiles) * layout.now.sizes.ways) }
    ensures { result ≡ length (slot_parcel layout.now.sizes.route layout.now.nest slot) }
{
    lens[slot - run.back * layout.sizes.ways]
}

// The lengths of the parcels of a run's tiles, as their twins'.
fn copy_run(layout: &Layout, lens: &mut [u16; TABLE_WORDS], tile: usize, run: Run)
    requires { Twins layout.now.sizes.route layout.now.nest tile run.back run.tiles × Filling layout.now.sizes.route layout.now.nest lens.old (tile * layout.now.sizes.ways) }
    ensures { Filling layout.now.sizes.route layout.now.nest lens.new ((tile + run.tiles) * layout.now.sizes.ways) }
{
    let end = (tile + run.tiles) * layout.sizes.ways;
    for slot in tile * layout.sizes.ways..end {
        lens[slot] = length_back(layout, lens, tile, run, slot);
    }
}

// The lengths of a tile's parcels, counted.
fn count_tile(layout: &Layout, lens: &mut [u16; TABLE_WORDS], tile: usize)
    requires { (tile < box_tiles layout.now.nest) × Filling layout.now.sizes.route layout.now.nest lens.old (tile * layout.now.sizes.ways) }
    ensures { Filling layout.now.sizes.route layout.now.nest lens.new ((tile + 1) * layout.now.sizes.ways) }
{
    let n = layout.sizes.ways;
    let first = tile * n;
    for slot in first..first + n {
        lens[slot] = parcels::parcel_length(layout, slot) as u16;
    }
}

// The lengths of the parcels of a tile and, where it begins a run, of the run's other tiles: the tile to go on from.
fn fill_from(layout: &Layout, lens: &mut [u16; TABLE_WORDS], tile: usize) -> usize
    requires { (tile < box_tiles layout.now.nest) × Filling layout.now.sizes.route layout.now.nest lens.old (tile * layout.now.sizes.ways) }
    ensures { (tile < result) × Filling layout.now.sizes.route layout.now.nest lens.new (result * layout.now.sizes.ways) }
{
    if let Some(run) = run_from(layout, tile) {
        copy_run(layout, lens, tile, run);
        return tile + run.tiles;
    }
    count_tile(layout, lens, tile);
    tile + 1
}

// The length of each slot's parcel.
pub fn fill(layout: &Layout, lens: &mut [u16; TABLE_WORDS])
    requires { (layout.now.nest.bounds ≡ 0) × (length lens.old ≡ 9217) }
    ensures { Table layout.now.sizes.route layout.now.nest lens.new }
{
    let tiles = layout.sizes.tiles;
    let mut tile = 0;
    // from run to run, each as long as it is
    while tile < tiles {
        tile = fill_from(layout, lens, tile);
    }
}

// The one slot along a way whose message has the tile at an end, by the steps to that end.
fn slot_at(
    layout: &Layout,
    lens: &[u16; TABLE_WORDS],
    steps: [usize; 8],
    tile: usize,
    way: usize,
) -> Option<usize>
    requires { Table layout.now.sizes.route layout.now.nest lens.now × (way < ways layout.now.sizes.route layout.now.nest) }
    ensures { (side : ℕ) → Stepped layout.now.sizes.route layout.now.nest side steps → Only layout.now.sizes.route layout.now.nest side tile way (unwrap_or result (slots layout.now.sizes.route layout.now.nest)) }
{
    let step = steps[way];
    if step > tile {
        return None;
    }
    let sender = tile - step;
    if sender >= layout.sizes.tiles {
        return None;
    }
    let slot = sender * layout.sizes.ways + way;
    if lens[slot] == 0 {
        return None;
    }
    Some(slot)
}

// That slot for each way, or the count of slots: no other slot has such a message. 0 is the sender's end, else the taker's.
fn slots_at(layout: &Layout, lens: &[u16; TABLE_WORDS], tile: usize, side: usize) -> [usize; 8]
    requires { Table layout.now.sizes.route layout.now.nest lens.now }
    ensures { Ends layout.now.sizes.route layout.now.nest side tile result × (length result ≡ 8) }
{
    let steps = layout.steps_of(side);
    let n = layout.sizes.ways;
    // behind every slot, so that none counts it as one before
    let none = layout.sizes.tiles * n;
    let mut ends = [none; 8];
    for way in 0..n {
        ends[way] = slot_at(layout, lens, steps, tile, way).unwrap_or(none);
    }
    ends
}

// How many are below a slot.
fn count_below(ends: &[usize], slot: usize) -> usize
    ensures { result ≡ count_by (λ end. ltb end slot) ends.now }
{
    ends.iter().filter(|&&end| end < slot).count()
}

// How many messages have the tile at this end: 0 the sender, else the taker.
pub fn count_at(layout: &Layout, lens: &[u16; TABLE_WORDS], tile: usize, side: usize) -> usize
    requires { Table layout.now.sizes.route layout.now.nest lens.now }
    ensures { (result ≡ length (at_end side (box_plan layout.now.sizes.route layout.now.nest) tile)) × (result ≤ 7168) }
{
    let ends = slots_at(layout, lens, tile, side);
    let n = layout.sizes.ways;
    count_below(&ends[..n], layout.sizes.tiles * n)
}

// The j-th of them: the one with j before it.
pub fn nth_at(
    layout: &Layout,
    lens: &[u16; TABLE_WORDS],
    tile: usize,
    side: usize,
    j: usize,
) -> MessageSlot
    requires sized { Table layout.now.sizes.route layout.now.nest lens.now }
    requires j_in_bounds { j < length (at_end side (box_plan layout.now.sizes.route layout.now.nest) tile) }
    ensures { FoundAt layout.now.sizes.route layout.now.nest (get_or (at_end side (box_plan layout.now.sizes.route layout.now.nest) tile) j 0) result }
{
    let found = slots_at(layout, lens, tile, side);
    let n = layout.sizes.ways;
    let ends = &found[..n];
    let slots = layout.sizes.tiles * n;
    for &slot in ends {
        if slot < slots && count_below(ends, slot) == j {
            return message_of(lens, slot);
        }
    }
    unreachable!()
}
