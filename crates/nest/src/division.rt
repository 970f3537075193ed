// The one division of a component by a tile length, in 16-bit numbers (W-206), which small processors divide in short code.
ghost use Rattle.std.specs.Prelude.{◌≡◌, ◌+◌, ◌-◌, ◌/◌, ◌%◌, ◌≤◌, ◌<◌};
ghost use Rattle.nest.specs.division.Division.{Splits};

// A component's tile, and the place in it.
#[derive(Clone, Copy)]
pub struct Divided {
    pub tile: u16,
    pub rest: u16,
}

// A component's tile and its place there.
pub fn split(component: u16, length: u16) -> Divided
    requires { (component < 1024) × (1 ≤ length) }
    ensures { Splits component length result }
{
    Divided {
        tile: component / length,
        rest: component % length,
    }
}

// The tile of a component along a dimension.
pub fn tile_along(component: usize, length: usize) -> usize
    requires { (component < 1024) × ((1 ≤ length) × (length < 65536)) }
    ensures { result ≡ component / length }
{
    let tiled = split(component as u16, length as u16);
    usize::from(tiled.tile)
}

// Its place in that tile.
pub fn place_along(component: usize, length: usize) -> usize
    requires { (component < 1024) × ((1 ≤ length) × (length < 65536)) }
    ensures { result ≡ component % length }
{
    let divided = split(component as u16, length as u16);
    usize::from(divided.rest)
}

// How many tiles there are along a dimension: up to the one that holds the last cell.
pub fn tiles_along(cells: usize, length: usize) -> usize
    requires { ((1 ≤ cells) × (cells ≤ 1024)) × ((1 ≤ length) × (length < 65536)) }
    ensures { (result ≡ (cells - 1) / length + 1) × (result ≤ 1024) }
{
    tile_along(cells - 1, length) + 1
}
