// Which of a cell's records counts, and whether a record's cell is one of the box (W-210): numbers alone, below the pass over the file.
ghost use Rattle.std.specs.Prelude.{◌≡◌, ◌+◌, ◌*◌, leb};

// Day before survey number, in one number.
fn joined(day: u32, survey: u32) -> u64
    ensures { result ≡ 4294967296 * day + survey }
{
    4294967296 * u64::from(day) + u64::from(survey)
}

// Whether a record counts from here on: unless the one that counted before it has a greater key.
pub fn counts(day: u32, survey: u32, old_day: u32, old_survey: u32) -> bool
    ensures { result ≡ leb (4294967296 * old_day + old_survey) (4294967296 * day + survey) }
{
    let old = joined(old_day, old_survey);
    let new = joined(day, survey);
    old <= new
}

// Whether a cell lies outside a box of so many.
pub fn beyond_box(cell: usize, size: usize) -> bool
    ensures { result ≡ leb size cell }
{
    size <= cell
}
