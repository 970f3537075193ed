// The fields of a recipe by value, as the writer takes them: with these a recipe is rebuilt byte for byte.
ghost use Rattle.std.specs.Prelude.{◌≡◌, true};
ghost use Rattle.writer.specs.Fields.{fields_of};
ghost use Rattle.writer.specs.Writing.{nest_writable};
ghost use Rattle.writer.specs.Demand202.{Tables};
ghost use Rattle.writer.specs.Told.{told_fields, no_fields, read_call};

use crate::table;
use nest::Nest;

// What reading tells: its number; how many dimensions, distances and bounds there are, whose numbers stand first in each table, 0 behind them;
// four components a distance; slopes and offsets as the recipe's signed bytes have them. All 0 beside the number at a refusal.
#[repr(C)]
#[derive(Clone, Copy)]
pub struct RecipeFields {
    pub number: u32,
    pub dimensions: u32,
    pub distances: u32,
    pub bounds: u32,
    pub boundary: u32,
    pub lengths: [u16; 4],
    pub tiling: [u16; 4],
    pub counts: [u16; 4],
    pub components: [u16; 32],
    pub weights: [u16; 8],
    pub offsets: [u16; 4],
    pub sides: [u8; 4],
    pub bounded: [u8; 4],
    pub earlier: [u8; 4],
    pub slopes: [u8; 4],
    pub shift: u8,
}

fn fields_of(nest: Nest) -> RecipeFields
    requires { Tables nest × (nest_writable nest ≡ true) }
    ensures { result ≡ told_fields (fields_of nest) }
{
    // By names of their own: the borrow checker stores no array straight from a field.
    let sides = nest.sides;
    let bounded = nest.bounded;
    let earlier = nest.earlier;
    RecipeFields {
        number: 0,
        dimensions: nest.dimensions as u32,
        distances: nest.distances as u32,
        bounds: nest.bounds as u32,
        boundary: nest.boundary as u32,
        lengths: table(&nest.lengths, 0, |length: usize| length as u16),
        tiling: table(&nest.tiling, 0, |tile: usize| tile as u16),
        counts: table(&nest.counts, 0, |count: usize| count as u16),
        components: table(&nest.components, 0, |component: usize| component as u16),
        weights: table(&nest.weights, 0, |weight: u64| weight as u16),
        offsets: table(
            &nest.offsets[..nest.bounds],
            0,
            |offset: u16| offset.wrapping_add(32768),
        ),
        sides,
        bounded,
        earlier,
        slopes: table(
            &nest.slopes[..nest.bounds],
            0,
            |slope: u8| slope.wrapping_add(255),
        ),
        shift: nest.shift as u8,
    }
}

fn no_fields(number: u32) -> RecipeFields
    ensures { result ≡ no_fields number }
{
    RecipeFields {
        number,
        dimensions: 0,
        distances: 0,
        bounds: 0,
        boundary: 0,
        lengths: [0; 4],
        tiling: [0; 4],
        counts: [0; 4],
        components: [0; 32],
        weights: [0; 8],
        offsets: [0; 4],
        sides: [0; 4],
        bounded: [0; 4],
        earlier: [0; 4],
        slopes: [0; 4],
        shift: 0,
    }
}

// Offered to callers: the fields that a recipe holds.
pub fn read(encoded: &[u8]) -> RecipeFields
    ensures { result ≡ read_call encoded.now }
{
    match reader::read(encoded) {
        Ok(nest) => fields_of(nest),
        Err(refusal) => no_fields(refusal.number()),
    }
}
