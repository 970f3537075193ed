// A grid's text for the charting desk (document 02, W-211), and its length: the calls, by the line that counts.
#![tactic(auto)]

ghost use Rattle.std.specs.Prelude.{◌≡◌, ◌++◌, drop, length, IfOk, OnErr, MatchResult};
ghost use Rattle.nest.specs.Accepted.{Accepted};
ghost use Rattle.base.specs.Numbers.{first_of};
ghost use Rattle.base.specs.Refusals.{number_of};
ghost use Rattle.nest.specs.Reader.{nest_of};
ghost use Rattle.chart.specs.grid_text.Text.{chart_text};
ghost use Rattle.chart.specs.Call.{measure_lines, length_lines, length_call, write_lines, written, write_call};

use crate::grid_text::put_text;
use base::refusal::Refusal;
use nest::Nest;

pub mod grid_text; // grid_text.rt: the text, row by row, put into a lent space; what falls past its end is counted alone

// What a call tells: its number, and the text's length in bytes, 0 at a refusal.
#[repr(C)]
#[derive(Clone, Copy)]
pub struct Told {
    pub number: u32,
    pub length: u32,
}

// What C is told of the text's length, or of a refusal.
fn tell(answer: Result<u32, Refusal>) -> Told
    ensures number { result.number ≡ number_of answer }
    ensures length { MatchResult answer (λ n. result.length ≡ n) (λ _. result.length ≡ 0) }
{
    match answer {
        Ok(length) => Told { number: 0, length },
        Err(refusal) => Told {
            number: refusal.number(),
            length: 0,
        },
    }
}

// The text's length, or line 23 or 9.
fn measured(nest: Nest, grid: &[u32], x: i32, y: i32, cell_size: u32) -> Result<u32, Refusal>
    requires { Accepted nest }
    ensures number { number_of result ≡ first_of (measure_lines nest grid.now cell_size) }
    ensures length { IfOk result (λ n. n ≡ length (chart_text nest grid.now x y cell_size)) }
{
    if nest.dimensions != 2 || cell_size == 0 || cell_size > 65535 {
        return Err(Refusal::NoChart);
    }
    if grid.len() != nest.lengths[0] * nest.lengths[1] {
        return Err(Refusal::Area);
    }
    let mut scratch = [0u8; 1];
    let length = put_text(&mut scratch, grid, nest, x, y, cell_size);
    Ok(length as u32)
}

// The same of a recipe's bytes, behind the reader's lines.
fn text_length(encoded: &[u8], grid: &[u32], x: i32, y: i32, cell_size: u32) -> Result<u32, Refusal>
    ensures number { number_of result ≡ first_of (length_lines encoded.now grid.now cell_size) }
    ensures length { IfOk result (λ n. n ≡ length (chart_text (nest_of encoded.now) grid.now x y cell_size)) }
{
    let nest = reader::read(encoded)?;
    measured(nest, grid, x, y, cell_size)
}

// The text put at the front of the space, and its length.
fn write_text(
    encoded: &[u8],
    grid: &[u32],
    x: i32,
    y: i32,
    cell_size: u32,
    space: &mut [u8],
) -> Result<u32, Refusal>
    ensures number { number_of result ≡ first_of (write_lines encoded.now grid.now x y cell_size space.old) }
    ensures length { IfOk result (λ n. n ≡ length (chart_text (nest_of encoded.now) grid.now x y cell_size)) }
    ensures ok { IfOk result (λ n. space.new ≡ chart_text (nest_of encoded.now) grid.now x y cell_size ++ drop n space.old) }
    ensures err { OnErr result (space.new ≡ space.old) }
{
    let nest = reader::read(encoded)?;
    let length = measured(nest, grid, x, y, cell_size)?;
    if space.len() < length as usize {
        return Err(Refusal::Area);
    }
    put_text(space, grid, nest, x, y, cell_size);
    Ok(length)
}

// ---- offered to callers

// The length of the grid's text.
pub fn length_of(encoded: &[u8], grid: &[u32], x: i32, y: i32, cell_size: u32) -> Told
    ensures { result ≡ length_call encoded.now grid.now x y cell_size }
{
    tell(text_length(encoded, grid, x, y, cell_size))
}

// The grid's text at the front of the space.
pub fn write(encoded: &[u8], grid: &[u32], x: i32, y: i32, cell_size: u32, space: &mut [u8]) -> Told
    ensures { written result space.new ≡ write_call encoded.now grid.now x y cell_size space.old }
{
    tell(write_text(encoded, grid, x, y, cell_size, space))
}
