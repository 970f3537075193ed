// Cells side by side, listed by their numbers.
ghost use Rattle.std.specs.Prelude.{◌≡◌, length};
ghost use Rattle.base.specs.Lists.{sublist, put};
ghost use Rattle.runs.specs.Runs.{Fits};
ghost use Rattle.runs.specs.listed.Numbers.{numbers};

// The n cells from `first` on, to the list from `at` on.
pub fn list_run(cells: &mut [u16], at: usize, first: usize, n: usize)
    requires { Fits (length cells.old) 16384 at first n }
    ensures { cells.new ≡ put cells.old at (sublist numbers first n) }
{
    for y in 0..n {
        cells[at + y] = (first + y) as u16;
    }
}
