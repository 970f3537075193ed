// The sixteen bytes of each record of a recipe, from its numbers.
ghost use Rattle.std.specs.Prelude.{◌≡◌};
ghost use Rattle.nest.specs.Encode.{low, high, dimension_record, narrow_record, wide_record, bound_record, close_record};

fn low(v: u64) -> u8
    ensures { result ≡ low v }
{
    (v % 256) as u8
}

fn high(v: u64) -> u8
    ensures { result ≡ high v }
{
    (v / 256 % 256) as u8
}

pub fn dimension_record(length: u64, tile: u64, count: u64) -> [u8; 16]
    ensures { result ≡ dimension_record length tile count }
{
    [
        1,
        0,
        low(length),
        high(length),
        low(tile),
        high(tile),
        low(count),
        high(count),
        0,
        0,
        0,
        0,
        0,
        0,
        0,
        0,
    ]
}

// A distance of kind 2: a byte a component.
pub fn narrow_record(d1: u64, d2: u64, d3: u64, d4: u64, weight: u64) -> [u8; 16]
    ensures { result ≡ narrow_record d1 d2 d3 d4 weight }
{
    let small = low(weight);
    let large = high(weight);
    [
        2,
        0,
        low(d1),
        low(d2),
        low(d3),
        low(d4),
        small,
        large,
        0,
        0,
        0,
        0,
        0,
        0,
        0,
        0,
    ]
}

// A distance of kind 4: two bytes a component.
pub fn wide_record(d1: u64, d2: u64, d3: u64, d4: u64, weight: u64) -> [u8; 16]
    ensures { result ≡ wide_record d1 d2 d3 d4 weight }
{
    [
        4,
        0,
        low(d1),
        high(d1),
        low(d2),
        high(d2),
        low(d3),
        high(d3),
        low(d4),
        high(d4),
        low(weight),
        high(weight),
        0,
        0,
        0,
        0,
    ]
}

// A bound, of slope + 1 and offset + 32,768.
pub fn bound_record(side: u64, dimension: u64, earlier: u64, slope: u64, offset: u64) -> [u8; 16]
    ensures { result ≡ bound_record side dimension earlier slope offset }
{
    let signed = offset % 65536 + 32768;
    [
        5,
        low(side),
        low(dimension),
        low(earlier),
        low(slope % 256 + 255),
        0,
        low(signed),
        high(signed),
        0,
        0,
        0,
        0,
        0,
        0,
        0,
        0,
    ]
}

pub fn close_record(shift: u64, boundary: u64) -> [u8; 16]
    ensures { result ≡ close_record shift boundary }
{
    let top = boundary / 65536;
    [
        3,
        low(shift),
        0,
        0,
        low(boundary),
        high(boundary),
        low(top),
        high(top),
        0,
        0,
        0,
        0,
        0,
        0,
        0,
        0,
    ]
}
