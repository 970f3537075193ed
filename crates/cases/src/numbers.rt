// Reads the recipes of the file `numbers` and prints each one's label and number. tools/recipes.py writes the file, and the
// numbers expected.
ghost use Rattle.std.specs.Prelude.{◌<◌, length, IfSome};

use base::refusal::number_of;
use std::io;

#[derive(Clone, Copy)]
struct Case<'a> {
    label: &'a [u8],
    encoded: &'a [u8],
}

// The first case and what is behind it: the label's length, the label, the recipe's length in two bytes, the recipe. None where no case is
// whole.
fn split_case(cases: &[u8]) -> Option<(Case<'_>, &[u8])>
    ensures { IfSome result (λ s. length s.1.now < length cases.now) }
{
    let (size, rest) = cases.split_first()?;
    let (label, rest) = rest.split_at_checked(usize::from(*size))?;
    let (count, rest) = rest.split_at_checked(2)?;
    let (encoded, rest) = rest.split_at_checked(base::half_at(count, 0))?;
    Some((Case { label, encoded }, rest))
}

// One line: the label, then the number that reading the recipe gives.
fn show(rt: &impl Print, case: Case<'_>) -> io::Result<()> {
    rt.write_all(case.label)?;
    println!(rt; " {}", number_of(&reader::read(case.encoded)))
}

pub fn show_all(rt: &impl Print, cases: &[u8]) -> io::Result<()> {
    let mut rest = cases;
    while let Some((case, after)) = split_case(rest) {
        show(rt, case)?;
        rest = after;
    }
    Ok(())
}
