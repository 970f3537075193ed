// A grid's text for the charting desk (document 02, W-211), written to a lent space.
// Every writer puts its bytes in the space from a place on and answers the next place; bytes past the space's end are counted and not
// written, so that the text written to a space of one byte tells its length.
ghost use Rattle.std.specs.Prelude.{◌≡◌, ◌+◌, ◌*◌, ◌≤◌, ◌<◌, length};
ghost use Rattle.nest.specs.Accepted.{Accepted};
ghost use Rattle.nest.specs.Nest.{cells, length_of};
ghost use Rattle.nest.specs.Shape.{in_shape};
ghost use Rattle.nest.specs.Spans.{within};
ghost use Rattle.text.specs.Decimal.{decimal, signed};
ghost use Rattle.text.specs.Writing.{pen, write};
ghost use Rattle.text.specs.Grid.{frame, head_line, header, cell, more, row, rows_from};
ghost use Rattle.chart.specs.grid_text.Rows.{Shown, Rows};
ghost use Rattle.chart.specs.grid_text.Text.{chart_text};

use nest::{Interval, Nest};

// ---- the header

// A line: its name, a space, its number, a line feed.
fn put_line(space: &mut [u8], at: usize, name: &[u8], n: u32) -> usize
    requires { at + length (head_line name.now (decimal n)) ≤ 4294967295 }
    ensures { pen result space.new ≡ write (pen at space.old) (head_line name.now (decimal n)) }
{
    let a = text::put_bytes(space, at, name);
    let b = text::put(space, a, 32);
    let c = text::put_decimal(space, b, n);
    text::put(space, c, 10)
}

// A line with a number of either sign.
fn put_signed_line(space: &mut [u8], at: usize, name: &[u8], z: i32) -> usize
    requires { at + length (head_line name.now (signed z)) ≤ 4294967295 }
    ensures { pen result space.new ≡ write (pen at space.old) (head_line name.now (signed z)) }
{
    let a = text::put_bytes(space, at, name);
    let b = text::put(space, a, 32);
    let c = text::put_signed(space, b, z);
    text::put(space, c, 10)
}

fn put_header(space: &mut [u8], rows: u32, columns: u32, x: i32, y: i32, size: u32) -> usize
    requires { length (header (frame rows columns x y size)) ≤ 4294967295 }
    ensures { pen result space.new ≡ write (pen 0 space.old) (header (frame rows columns x y size)) }
{
    let a = put_line(space, 0, b"ncols", columns);
    let b = put_line(space, a, b"nrows", rows);
    let c = put_signed_line(space, b, b"xllcorner", x);
    let d = put_signed_line(space, c, b"yllcorner", y);
    let e = put_line(space, d, b"cellsize", size);
    text::put_bytes(space, e, b"NODATA_value -9999\n")
}

// ---- the rows

// The cells of a row that are in the shape, by their numbers; c is the number of the row's first cell.
fn shown(nest: Nest, i: usize, c: usize) -> Interval
    requires { Accepted nest × ((nest.dimensions ≡ 2) × ((c ≡ i * length_of nest 1) × (c ≤ 16384))) }
    ensures { Shown nest c result }
{
    let s = nest::span(nest, nest::row_place(nest, i));
    if s.to <= s.from {
        return Interval { from: 0, to: 0 };
    }
    Interval {
        from: c + s.from,
        to: c + s.to,
    }
}

// Cell c is one of them.
fn has(s: Interval, c: usize) -> bool
    ensures { result ≡ within s c }
{
    s.from <= c && c < s.to
}

// A cell: its value, or -9999 outside the shape.
fn put_cell(space: &mut [u8], at: usize, grid: &[u32], s: Interval, c: usize) -> usize
    requires c_bound { at + length (cell grid.now (within s) c) ≤ 4294967295 }
    requires c_in_bounds { c < length grid.now }
    ensures { pen result space.new ≡ write (pen at space.old) (cell grid.now (within s) c) }
{
    if has(s, c) {
        return text::put_decimal(space, at, grid[c]);
    }
    text::put_bytes(space, at, b"-9999")
}

// The rest of a row: a space before each cell, and the line feed.
fn put_more(space: &mut [u8], at: usize, grid: &[u32], s: Interval, c: usize, n: usize) -> usize
    requires n_bound { at + length (more grid.now (within s) c n) ≤ 4294967295 }
    requires n_in_bounds { (c + n ≤ length grid.now) × (length grid.now ≤ 16384) }
    ensures { pen result space.new ≡ write (pen at space.old) (more grid.now (within s) c n) }
{
    let mut place = at;
    for j in 0..n {
        let after = text::put(space, place, 32);
        place = put_cell(space, after, grid, s, c + j);
    }
    text::put(space, place, 10)
}

fn put_row(space: &mut [u8], at: usize, grid: &[u32], s: Interval, c: usize, n: usize) -> usize
    requires n_bound { at + length (row grid.now (within s) c n) ≤ 4294967295 }
    requires n_in_bounds { (c + n ≤ length grid.now) × (length grid.now ≤ 16384) }
    ensures { pen result space.new ≡ write (pen at space.old) (row grid.now (within s) c n) }
{
    if n == 0 {
        return text::put(space, at, 10);
    }
    let next = put_cell(space, at, grid, s, c);
    put_more(space, next, grid, s, c + 1, n - 1)
}

fn put_rows(space: &mut [u8], at: usize, grid: &[u32], nest: Nest, n: usize, k: usize) -> usize
    requires k_bound { at + length (rows_from grid.now (in_shape nest) n 0 k) ≤ 4294967295 }
    requires rows { Rows nest (length grid.now) n k }
    ensures { pen result space.new ≡ write (pen at space.old) (rows_from grid.now (in_shape nest) n 0 k) }
{
    let mut place = at;
    let mut c = 0;
    for i in 0..k {
        let s = shown(nest, i, c);
        place = put_row(space, place, grid, s, c, n);
        c += n;
    }
    place
}

// ---- the whole text

pub fn put_text(space: &mut [u8], grid: &[u32], nest: Nest, x: i32, y: i32, size: u32) -> usize
    requires { Accepted nest × ((nest.dimensions ≡ 2) × (length grid.now ≡ cells nest)) }
    ensures space_after { pen result space.new ≡ write (pen 0 space.old) (chart_text nest grid.now x y size) }
    ensures upper_bound { result ≤ 4294967295 }
{
    let lengths = nest.lengths;
    let rows = lengths[0];
    let columns = lengths[1];
    let next = put_header(space, rows as u32, columns as u32, x, y, size);
    put_rows(space, next, grid, nest, columns, rows)
}
