// Cells and tiles in code: numbers and places, the tile of a cell, the processor of a tile, a tile's box, the ends of a slot.
#![tactic(auto)]

ghost use Rattle.std.specs.Prelude.{◌≡◌, ◌≢◌, ℕ, ◌+◌, ◌*◌, ◌-◌, ◌/◌, ◌%◌, ◌≤◌, ◌<◌, length, get_or, true};
ghost use Rattle.base.specs.Tests.{pick, product};
ghost use Rattle.machine.specs.Plan.{tiles_of};
ghost use Rattle.nest.specs.Accepted.{Accepted};
ghost use Rattle.nest.specs.Nest.{tile_count, tile_length, cells, processors, box_tiles};
ghost use Rattle.nest.specs.Places.{rank, tile_at, box_tile_of, tile_place};
ghost use Rattle.plan.specs.declared.Route.TheVariants.{Direct};
ghost use Rattle.plan.specs.Geometry.{processor_of};
ghost use Rattle.plan.specs.Messages.{ways, slots, box_plan};
ghost use Rattle.plan.specs.Box.{box_cell};
ghost use Rattle.layout.specs.Sizes.{Sized, Routed, along, end_at, Stepped};
ghost use Rattle.layout.specs.RouteWords.{route_of};
ghost use Rattle.layout.specs.Places.{nth, Has, Countable, Ranked, Places, Placed, Shared, Located, Bounded};

use nest::Nest;
use nest::division::tile_along;
use plan::Route;

// A nest's counts on a route, made once in a call: tiles along each dimension, the products, and the ways that a tile's messages go.
#[derive(Clone, Copy)]
pub struct Sizes {
    pub cells: usize,
    pub tiles: usize,
    pub processors: usize,
    pub route: Route,
    pub ways: usize,
    pub across: [usize; 4],
}

// An accepted nest with its counts on a route: what the code below the calls works on.
#[derive(Clone, Copy)]
pub struct Layout {
    pub nest: Nest,
    pub sizes: Sizes,
    ghost sized: { Sized nest sizes },
}

// A processor's share of the tiles along a dimension.
#[derive(Clone, Copy)]
pub struct Share {
    pub first: usize,
    pub stride: usize,
    pub tiles: usize,
    pub rest: usize,
}

// A cell's number and place.
#[derive(Clone, Copy)]
pub struct Cell {
    pub number: usize,
    pub place: [usize; 4],
}

// The cells of a tile: a box, from its first place, with its lengths.
#[derive(Clone, Copy)]
pub struct Bounds {
    pub tile: usize,
    pub corner: [usize; 4],
    pub lengths: [usize; 4],
    pub size: usize,
}

// The number of a place among those of the first `left` dimensions, one dimension at a time. The recursions go over references: arrays by value
// are copied at each of their steps.
pub fn rank_of(lengths: &[usize; 4], at: &[usize; 4], left: usize) -> usize
    requires { Ranked lengths.now at.now left }
    ensures { result ≡ rank (nth lengths.now) (nth at.now) left }
{
    if left == 0 {
        return 0;
    }
    let j = left - 1;
    rank_of(lengths, at, j) * lengths[j] + at[j]
}

// The same of arrays by value.
pub fn rank(lengths: [usize; 4], at: [usize; 4], left: usize) -> usize
    requires { Ranked lengths at left }
    ensures { result ≡ rank (nth lengths) (nth at) left }
{
    rank_of(&lengths, &at, left)
}

// The inverse, by the same recursion: the place of number n is added to the place `at`.
pub fn add_place(lengths: &[usize; 4], at: &mut [usize; 4], n: usize, left: usize)
    requires { (length at.old ≡ 4) × Places lengths.now at.old left }
    ensures { (length at.new ≡ 4) × Placed lengths.now at.old n left at.new }
{
    if left == 0 {
        return;
    }
    let j = left - 1;
    let length = lengths[j];
    at[j] += n % length;
    add_place(lengths, at, n / length, j);
}

// The same of arrays by value: the place of number n, added to the place `from`.
pub fn place(lengths: [usize; 4], from: [usize; 4], n: usize, left: usize) -> [usize; 4]
    requires { Places lengths from left }
    ensures { Placed lengths from n left result }
{
    let mut at = from;
    add_place(&lengths, &mut at, n, left);
    at
}

// The product of the first `left` counts.
pub fn product(counts: [usize; 4], left: usize) -> usize
    requires { Countable counts left }
    ensures { result ≡ product (nth counts) left }
{
    let mut product = 1;
    for count in &counts[..left] {
        product *= *count;
    }
    product
}

// Tiles along each dimension: up to the one that holds the last cell.
fn across_of(nest: Nest) -> [usize; 4]
    requires { Accepted nest }
    ensures { Has result (tile_count nest) nest.dimensions }
{
    let mut across = [0; 4];
    for j in 0..nest.dimensions {
        across[j] = tile_along(nest.lengths[j] - 1, nest.tiling[j]) + 1;
    }
    across
}

// The route that a word names: 0 direct, any other indirect.
pub fn route_of(word: u32) -> Route
    ensures { result ≡ route_of word }
{
    if word == 0 {
        Route::Direct
    } else {
        Route::Indirect
    }
}

// Directions, or spread dimensions.
fn ways_of(nest: Nest, route: Route) -> usize
    requires { Accepted nest }
    ensures { result ≡ ways route nest }
{
    match route {
        Route::Direct => product([2; 4], nest.spread) - 1,
        Route::Indirect => nest.spread,
    }
}

// A nest's counts on a route.
pub fn sizes_of(nest: Nest, route: Route) -> Sizes
    requires { Accepted nest }
    ensures { Sized nest result × (result.route ≡ route) }
{
    let across = across_of(nest);
    let cells = product(nest.lengths, nest.dimensions);
    let tiles = product(across, nest.dimensions);
    let processors = product(nest.counts, nest.spread);
    let ways = ways_of(nest, route);
    Sizes {
        cells,
        tiles,
        processors,
        route,
        ways,
        across,
    }
}

// A processor's tiles along a dimension, in a spread one each `count`-th; `rest` is its number over the dimensions before.
fn share_of(across: usize, count: usize, processor: usize, spread: bool) -> Share
    requires { (1 ≤ across) × ((across ≤ 1024) × (spread ≡ true → (1 ≤ count) × (count ≤ 4096))) }
    ensures { Shared across (pick spread count 1) processor result }
{
    if !spread {
        return Share {
            first: 0,
            stride: 1,
            tiles: across,
            rest: processor,
        };
    }
    let first = processor % count;
    Share {
        first,
        stride: count,
        tiles: (across - 1 + count - first) / count,
        rest: processor / count,
    }
}

// A cell's place; a nest alone is asked for, whatever its route.
pub fn cell_of(nest: Nest, cell: usize) -> Cell
    requires { Accepted nest × (cell < cells nest) }
    ensures { Located nest cell result }
{
    Cell {
        number: cell,
        place: place(nest.lengths, [0; 4], cell, nest.dimensions),
    }
}

// The q-th cell of a tile's box, likewise.
pub fn cell_in(nest: Nest, bounds: Bounds, q: usize) -> Cell
    requires { Accepted nest × (Bounded nest bounds × (q < bounds.size)) }
    ensures { Located nest (box_cell nest bounds.tile q) result }
{
    let at = place(bounds.lengths, bounds.corner, q, nest.dimensions);
    Cell {
        number: rank_of(&nest.lengths, &at, nest.dimensions),
        place: at,
    }
}

impl Layout {
    // The counts of an accepted nest, found once in a call.
    pub fn of(nest: Nest, route: Route) -> Self
        requires { Accepted nest }
        ensures { (result.nest ≡ nest) × (result.sizes.route ≡ route) }
    {
        let sizes = sizes_of(nest, route);
        Layout { nest, sizes }
    }

    pub fn cell_of(&self, cell: usize) -> Cell
        requires { cell < cells self.now.nest }
        ensures { Located self.now.nest cell result }
    {
        cell_of(self.nest, cell)
    }

    pub fn place_of_tile(&self, tile: usize) -> [usize; 4]
        ensures { Has result (tile_place self.now.nest tile) self.now.nest.dimensions }
    {
        place(self.sizes.across, [0; 4], tile, self.nest.dimensions)
    }

    // The tile's place of a cell's: the quotient in each dimension.
    fn quotients(&self, at: [usize; 4]) -> [usize; 4]
        requires { (j : ℕ) → j < self.now.nest.dimensions → get_or at j 0 < 1024 }
        ensures { Has result (λ j. get_or at j 0 / tile_length self.now.nest j) self.now.nest.dimensions }
    {
        let mut tile = at;
        for j in 0..self.nest.dimensions {
            tile[j] = tile_along(at[j], self.nest.tiling[j]);
        }
        tile
    }

    pub fn tile_of(&self, cell: usize) -> usize
        requires { cell < cells self.now.nest }
        ensures { (result ≡ box_tile_of self.now.nest cell) × (result < box_tiles self.now.nest) }
    {
        let tile = self.quotients(self.cell_of(cell).place);
        rank_of(&self.sizes.across, &tile, self.nest.dimensions)
    }

    // The processor's place of a tile's: the remainder in each spread dimension.
    fn remainders(&self, at: [usize; 4]) -> [usize; 4]
        ensures { Has result (λ j. get_or at j 0 % get_or self.now.nest.counts j 0) self.now.nest.spread }
    {
        let mut processor = at;
        for j in 0..self.nest.spread {
            processor[j] = at[j] % self.nest.counts[j];
        }
        processor
    }

    pub fn processor_of(&self, tile: usize) -> usize
        requires { tile < box_tiles self.now.nest }
        ensures { (result ≡ processor_of self.now.nest tile) × (result < processors self.now.nest) }
    {
        let at = self.remainders(self.place_of_tile(tile));
        rank_of(&self.nest.counts, &at, self.nest.spread)
    }

    // How many tiles a processor has: the product of its shares.
    pub fn tile_count(&self, processor: usize) -> usize
        ensures { (result ≡ length (tiles_of (box_plan self.now.sizes.route self.now.nest) processor)) × (result ≤ 16384) }
    {
        if processor >= self.sizes.processors {
            return 0;
        }
        let mut rest = processor;
        let mut n = 1;
        for j in (0..self.nest.dimensions).rev() {
            let share = share_of(
                self.sizes.across[j],
                self.nest.counts[j],
                rest,
                j < self.nest.spread,
            );
            n *= share.tiles;
            rest = share.rest;
        }
        n
    }

    // Its tile after so many finished ones: in each dimension the place among its share, from the last dimension on.
    pub fn tile_at(&self, processor: usize, finished: usize) -> usize
        requires { finished < length (tiles_of (box_plan self.now.sizes.route self.now.nest) processor) }
        ensures { (result ≡ get_or (tiles_of (box_plan self.now.sizes.route self.now.nest) processor) finished 0) × (result < box_tiles self.now.nest) }
    {
        let mut rest = processor;
        let mut left = finished;
        let mut weight = 1;
        let mut tile = 0;
        for j in (0..self.nest.dimensions).rev() {
            let share = share_of(
                self.sizes.across[j],
                self.nest.counts[j],
                rest,
                j < self.nest.spread,
            );
            tile += (share.first + left % share.tiles * share.stride) * weight;
            rest = share.rest;
            left /= share.tiles;
            weight *= self.sizes.across[j];
        }
        tile
    }

    // The box of a tile's cells; an edge tile ends where the nest does.
    pub fn bounds_of(&self, tile: usize) -> Bounds
        requires { tile < box_tiles self.now.nest }
        ensures { Bounded self.now.nest result × (result.tile ≡ tile) }
    {
        let mut corner = self.place_of_tile(tile);
        let mut lengths = [0; 4];
        for j in 0..self.nest.dimensions {
            let first = corner[j] * self.nest.tiling[j];
            corner[j] = first;
            lengths[j] = self.nest.tiling[j].min(self.nest.lengths[j] - first);
        }
        let size = product(lengths, self.nest.dimensions);
        Bounds {
            tile,
            corner,
            lengths,
            size,
        }
    }

    // The q-th cell of the box.
    pub fn cell_in(&self, bounds: Bounds, q: usize) -> Cell
        requires { Bounded self.now.nest bounds × (q < bounds.size) }
        ensures { Located self.now.nest (box_cell self.now.nest bounds.tile q) result }
    {
        cell_in(self.nest, bounds, q)
    }

    // How a way moves a tile's place: by a direction's components, or by one in a spread dimension.
    pub fn along_of(&self, way: usize) -> [usize; 4]
        requires { way < ways self.now.sizes.route self.now.nest }
        ensures { Has result (along self.now.sizes.route self.now.nest way) self.now.nest.dimensions }
    {
        match self.sizes.route {
            Route::Direct => place([2; 4], [0; 4], way + 1, self.nest.spread),
            Route::Indirect => {
                let mut at = [0; 4];
                at[way] = 1;
                at
            }
        }
    }

    // How far the taker is from the sender along a way: the same from every tile.
    fn step_of(&self, way: usize) -> usize
        requires { way < ways self.now.sizes.route self.now.nest }
        ensures { (result ≡ tile_at self.now.nest (along self.now.sizes.route self.now.nest way)) × (result ≤ 65536) }
    {
        rank(self.sizes.across, self.along_of(way), self.nest.dimensions)
    }

    // The tile at an end of a slot: 0 the sender, else the taker.
    pub fn end_of(&self, slot: usize, side: usize) -> usize
        requires { slot < slots self.now.sizes.route self.now.nest }
        ensures { result ≡ end_at self.now.sizes.route self.now.nest side slot }
    {
        let sender = slot / self.sizes.ways;
        if side == 0 {
            return sender;
        }
        sender + self.step_of(slot % self.sizes.ways)
    }

    // How far the tile at that end is from the sender, along each way.
    pub fn steps_of(&self, side: usize) -> [usize; 8]
        ensures { Stepped self.now.sizes.route self.now.nest side result }
    {
        let mut steps = [0; 8];
        if side == 0 {
            return steps;
        }
        for w in 0..self.sizes.ways {
            steps[w] = self.step_of(w);
        }
        steps
    }
}
