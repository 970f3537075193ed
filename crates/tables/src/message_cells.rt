// The cells of a message, listed in the order of its words: without bounds by the rows of its box, with bounds by the runs of its rows.
ghost use Rattle.std.specs.Prelude.{◌≡◌, ◌+◌, ◌<◌, length};
ghost use Rattle.base.specs.Lists.{pack};
ghost use Rattle.machine.specs.Plan.{held_by};
ghost use Rattle.nest.specs.Nest.{box_tiles};
ghost use Rattle.layout.specs.Laid.{plan_of_layout};
ghost use Rattle.plan.specs.declared.Route.TheVariants.{Direct};
ghost use Rattle.plan.specs.Messages.{ways, slots, slot_parcel};
ghost use Rattle.plan.specs.Shaped.{shaped_parcel};
ghost use Rattle.runs.specs.Runs.{Room, Packed};
ghost use Rattle.tables.specs.Tables.{Tabled, FoundIn};
ghost use Rattle.runs.specs.listed.Numbers.{numbers};

use crate::TABLE_WORDS;
use crate::scans::MessageSlot;
use layout::Layout;
use runs::listed::list_run;

// A row's cells that lie in one of the runs, behind those listed before: each piece at once.
fn list_row(
    cells: &mut [u16],
    starts: &[usize; 8],
    ends: &[usize; 8],
    n: usize,
    from: usize,
    component: usize,
    width: usize,
    listed: usize,
) -> usize
    requires { Room starts.now ends.now n from component width 16384 (length cells.old) listed }
    ensures { Packed starts.now ends.now n from component width numbers cells.old listed cells.new result }
{
    let to = component + width;
    let mut at = component;
    let mut count = listed;
    // from piece to piece, each as long as it is
    while at < to {
        let piece = runs::piece_of(starts, ends, n, at, to);
        list_run(cells, count, from + (at - component), piece.hits);
        count += piece.hits;
        at = piece.end;
    }
    count
}

// The cells of a tile of the box and a way, of a nest with bounds, row by row.
fn list_shaped(layout: &Layout, tile: usize, way: usize, cells: &mut [u16])
    requires sized { (layout.now.sizes.route ≡ Direct) × ((tile < box_tiles layout.now.nest) × (way < ways Direct layout.now.nest)) }
    requires cells_len { length cells.old ≡ length (shaped_parcel layout.now.nest tile (way + 1)) }
    ensures { cells.new ≡ pack numbers (shaped_parcel layout.now.nest tile (way + 1)) }
{
    let rows = parcels::shaped::rows_at(layout, tile, way);
    let components = layout.nest.components;
    let lengths = layout.nest.lengths;
    let n = rows.rows;
    let last = layout.nest.dimensions - 1;
    let mut count = 0;
    for r in 0..n {
        let row = parcels::shaped::row_of(layout.nest, &components, rows, r);
        let place = row.place;
        let starts = row.starts;
        let ends = row.ends;
        let number = layout::rank(lengths, place, layout.nest.dimensions);
        count = list_row(
            cells,
            &starts,
            &ends,
            row.runs,
            number,
            place[last],
            rows.width,
            count,
        );
    }
}

// The cells of a slot of a nest without bounds, row by row: a row's first ones; rows alike that have none are passed over at once.
fn list_box(layout: &Layout, slot: usize, cells: &mut [u16])
    requires { (slot < slots layout.now.sizes.route layout.now.nest)
        × ((length cells.old ≡ length (slot_parcel layout.now.sizes.route layout.now.nest slot)) × (0 < length cells.old)) }
    ensures { cells.new ≡ pack numbers (slot_parcel layout.now.sizes.route layout.now.nest slot) }
{
    let at = layout.place_of_tile(slot / layout.sizes.ways);
    let ahead = layout.along_of(slot % layout.sizes.ways);
    let sending = parcels::sending_of(layout, slot, at, ahead);
    let components = layout.nest.components;
    let rows = sending.rows;
    let lengths = layout.nest.lengths;
    let mut count = 0;
    let mut r = 0;
    // by one row, or over as many as have none
    while r < rows {
        let row = parcels::row_at(layout.nest, &components, sending, r);
        if row.run == 0 {
            r += row.alike;
            continue;
        }
        let place = row.place;
        let number = layout::rank(lengths, place, layout.nest.dimensions);
        list_run(cells, count, number, row.run);
        count += row.run;
        r += 1;
    }
}

// The cells of a message.
pub fn cells_of(layout: &Layout, lens: &[u16; TABLE_WORDS], place: MessageSlot, cells: &mut [u16])
    requires sized { Tabled layout.now.nest layout.now.sizes lens.now × FoundIn layout.now.sizes.route layout.now.nest place.number place }
    requires cells_len { length cells.old ≡ place.words }
    ensures { cells.new ≡ held_by (plan_of_layout layout.now) place.number }
{
    let slot = place.slot;
    if layout.nest.bounds == 0 {
        list_box(layout, slot, cells);
        return;
    }
    let tile = crate::shaped_table::box_of(layout.nest, lens, slot / layout.sizes.ways);
    list_shaped(layout, tile, slot % layout.sizes.ways, cells);
}
