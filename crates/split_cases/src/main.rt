// Splits every component from 0 to 1,023 by every tile length from 1 to 1,024 and prints how many of these splits are the tile and
// the rest found by counting up, without a division.
#![tactic(auto)]

ghost use Rattle.std.specs.Prelude.{◌≤◌, ◌<◌};

use std::io;

// One where the split is this tile and this rest, else none.
fn agrees(component: u16, length: u16, tile: u16, rest: u16) -> u32
    requires { (component < 1024) × (1 ≤ length) }
    ensures { result ≤ 1 }
{
    let d = nest::division::split(component, length);
    if d.tile == tile {
        if d.rest == rest {
            return 1;
        }
    }
    0
}

// How many components are split as counting up says: the rest grows until it is the length, then the next tile begins.
fn agreeing(length: u16) -> u32
    requires { 1 ≤ length }
    ensures { result ≤ 1024 }
{
    let mut tile: u16 = 0;
    let mut rest: u16 = 0;
    let mut n: u32 = 0;
    for component in 0..1024u16 {
        n += agrees(component, length, tile, rest);
        rest += 1;
        if rest == length {
            rest = 0;
            tile += 1;
        }
    }
    n
}

fn main(rt: HostRuntime) -> io::Result<()> {
    let mut n: u32 = 0;
    for length in 1..1025u16 {
        n += agreeing(length);
    }
    println!(rt; "{n} of 1048576 splits agree")
}
