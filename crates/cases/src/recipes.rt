// Prints the plan of each recipe of the file `plans`, and what the second program writes for each of the file `sweeps`. For each recipe two
// bytes of length, least first, then the recipe. The length's highest bit is the plan's route, 0 direct, 1 indirect; on the indirect one the
// messages' hops follow.
use std::io;

// What is printed of each recipe of a file.
#[derive(Clone, Copy)]
pub enum Printing {
    Plan,
    Sweeps,
}

#[derive(Clone, Copy)]
struct Case<'a> {
    route: u32,
    encoded: &'a [u8],
}

// The first recipe and what is behind it; none where none is whole.
fn split_case(all: &[u8]) -> Option<(Case<'_>, &[u8])> {
    let (head, rest) = all.split_at_checked(2)?;
    let head = base::half_at(head, 0);
    let (encoded, rest) = rest.split_at_checked(head % 32768)?;
    let route = (head / 32768) as u32;
    Some((Case { route, encoded }, rest))
}

// The line above what a case prints.
pub fn print_head(rt: &impl Print, number: u64) -> io::Result<()> {
    println!(rt; "case {number}")
}

fn print_plan(rt: &impl Print, case: Case<'_>) -> io::Result<()> {
    plan_text::print_routed(rt, case.encoded, case.route)?;
    if case.route != 0 {
        plan_text::print_hops(rt, case.encoded)?;
    }
    Ok(())
}

// The recipes one after the other, as far as they are whole: planned, or swept both ways.
pub fn print_cases(rt: &impl Print, all: &[u8], printing: Printing) -> io::Result<()> {
    let mut rest = all;
    for number in 0..u64::MAX {
        let Some((case, after)) = split_case(rest) else {
            break;
        };
        print_head(rt, number)?;
        match printing {
            Printing::Plan => print_plan(rt, case)?,
            Printing::Sweeps => comparison::print(rt, case.encoded)?,
        }
        rest = after;
    }
    Ok(())
}
