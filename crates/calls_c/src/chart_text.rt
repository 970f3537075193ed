// The calls of crates/calls/src/chart_text.rt with C linkage, each with the clauses that it has there. tools/exports.py writes this file.
ghost use Rattle.calls.specs.Gave.{ChartGave, ChartLengthGave};

use chart::Told;

// The grid's text for the charting desk at the front of the space, and its length in bytes.
#[unsafe(no_mangle)]
pub extern "C" fn rolwyddac_chart(
    encoded: &[u8],
    grid: &[u32],
    x: i32,
    y: i32,
    cell_size: u32,
    space: &mut [u8],
) -> Told
    ensures { ChartGave encoded.now grid.now x y cell_size space.old result space.new }
{
    calls::chart_text::rolwyddac_chart(encoded, grid, x, y, cell_size, space)
}

// The length in bytes of that text.
#[unsafe(no_mangle)]
pub extern "C" fn rolwyddac_chart_length(
    encoded: &[u8],
    grid: &[u32],
    x: i32,
    y: i32,
    cell_size: u32,
) -> Told
    ensures { ChartLengthGave encoded.now grid.now x y cell_size result }
{
    calls::chart_text::rolwyddac_chart_length(encoded, grid, x, y, cell_size)
}
