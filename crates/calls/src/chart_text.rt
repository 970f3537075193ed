// The calls for the charting desk with C linkage: a grid's text in lent bytes, and its length alone.
ghost use Rattle.calls.specs.Gave.{ChartGave, ChartLengthGave};

use chart::Told;

// The grid's text for the charting desk at the front of the space, and its length in bytes.
#[unsafe(no_mangle)]
pub extern "C" fn rolwyddac_chart(
    encoded: &[u8],
    grid: &[u32],
    x: i32,
    y: i32,
    cell_size: u32,
    space: &mut [u8],
) -> Told
    ensures { ChartGave encoded.now grid.now x y cell_size space.old result space.new }
{
    chart::write(encoded, grid, x, y, cell_size, space)
}

// The length in bytes of that text.
#[unsafe(no_mangle)]
pub extern "C" fn rolwyddac_chart_length(
    encoded: &[u8],
    grid: &[u32],
    x: i32,
    y: i32,
    cell_size: u32,
) -> Told
    ensures { ChartLengthGave encoded.now grid.now x y cell_size result }
{
    chart::length_of(encoded, grid, x, y, cell_size)
}
