// The stored cases, file by file: the reader's numbers, plans, sweeps compared, calls one by one. tools/ makes the files, and what is
// expected of each, from the models; tools/README.md has the formats.
#![tactic(auto)]

ghost use Rattle.std.specs.Prelude.{◌≡◌, length};
ghost use Rattle.program_io.specs.Counts.{IsPrefixLen};

mod numbers; // numbers.rt: labelled recipes, each one's number
mod recipes; // recipes.rt: recipes, each one's plan or its sweeps compared
mod script; // script.rt: calls on areas, each one's number and a checksum of the areas

use crate::recipes::Printing;
use std::rt::Files;
use std::{fs, io};

// Room for each file that is read whole.
fn room() -> [u8; 131072]
    ensures { 131072 ≡ length result }
{
    [0; 131072]
}

// A whole file, as far as the space goes: how many bytes it has.
fn read_file(rt: &(impl Files + Eprint + Alloc), path: &str, space: &mut [u8]) -> usize
    ensures { IsPrefixLen result space.new }
{
    match fs::open(rt, path) {
        Ok(mut file) => program_io::read_full(&mut file, space),
        Err(e) => {
            program_io::fail(rt, path, e);
            0
        }
    }
}

fn main(rt: HostRuntime) -> io::Result<()> {
    let mut space = room();
    let numbers_end = read_file(&rt, "numbers", &mut space);
    numbers::show_all(&rt, &space[..numbers_end])?;
    let plans_end = read_file(&rt, "plans", &mut space);
    recipes::print_cases(&rt, &space[..plans_end], Printing::Plan)?;
    let sweeps_end = read_file(&rt, "sweeps", &mut space);
    recipes::print_cases(&rt, &space[..sweeps_end], Printing::Sweeps)?;
    script::run_file(&rt, "script")
}
