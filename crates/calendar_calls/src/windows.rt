// Code of the hours when processors may run (W-212): whether a table has a faulty window, whether a processor is open, and the minutes until
// it next opens. Nothing here knows a recipe.
ghost use Rattle.std.specs.Prelude.{◌≡◌, ℕ, ◌+◌, ◌*◌, ◌%◌, ◌<◌, ◌≤◌, false, length};
ghost use Rattle.calendar.specs.Windows.{week, is_faulty, covers, faulty_board, faulty_table, open_at, until_open};
ghost use Rattle.calendar.specs.Waits.{Fair, First};

use crate::{WEEK, WINDOW_WORDS};

// A pair of words is a faulty window.
fn faulty_pair(opens: u32, closes: u32) -> bool
    ensures { result ≡ is_faulty opens closes }
{
    if closes > WEEK {
        return true;
    }
    if closes == 0 {
        return opens > 0;
    }
    opens >= closes
}

// The processor has a faulty window.
fn faulty_board(calendar: &[u32], b: usize) -> bool
    requires { (b < 64) × (28 * b + 28 ≤ length calendar.now) }
    ensures { result ≡ faulty_board calendar.now b }
{
    for w in 0..14 {
        let at = WINDOW_WORDS * b + 2 * w;
        if faulty_pair(calendar[at], calendar[at + 1]) {
            return true;
        }
    }
    false
}

// Some window of the first n processors is faulty.
pub fn faulty_table(calendar: &[u32], n: usize) -> bool
    requires { (n ≤ 64) × (28 * n ≤ length calendar.now) }
    ensures { result ≡ faulty_table n calendar.now }
{
    for b in 0..n {
        if faulty_board(calendar, b) {
            return true;
        }
    }
    false
}

// The minute lies in the window.
fn covers(opens: u32, closes: u32, minute: u32) -> bool
    ensures { result ≡ covers opens closes minute }
{
    opens <= minute && minute < closes
}

// The processor is open at the minute.
pub fn open_at(calendar: &[u32], b: usize, minute: u32) -> bool
    requires { (b < 64) × (28 * b + 28 ≤ length calendar.now) }
    ensures { result ≡ open_at calendar.now b minute }
{
    for w in 0..14 {
        let at = WINDOW_WORDS * b + 2 * w;
        if covers(calendar[at], calendar[at + 1], minute) {
            return true;
        }
    }
    false
}

// Minutes until a window is next open; 10,080 where the pair is no window.
fn wait(opens: u32, closes: u32, minute: u32) -> u32
    requires { (minute < week) × Fair opens closes }
    ensures { First (λ (n : ℕ). covers opens closes ((minute + n) % week)) result }
{
    if minute < opens {
        return opens - minute;
    }
    if minute < closes {
        return 0;
    }
    if closes == 0 {
        return WEEK;
    }
    opens + WEEK - minute
}

// Each of the processor's 14 windows is viewed at once.
pub fn minutes(calendar: &[u32], b: usize, minute: u32) -> Option<u32>
    requires { (b < 64) × ((28 * b + 28 ≤ length calendar.now) × ((minute < week) × (faulty_board calendar.now b ≡ false))) }
    ensures { result ≡ until_open calendar.now minute b }
{
    let mut soonest: u32 = WEEK;
    for w in 0..14 {
        let at = WINDOW_WORDS * b + 2 * w;
        let v = wait(calendar[at], calendar[at + 1], minute);
        soonest = soonest.min(v);
    }
    if soonest == WEEK {
        return None;
    }
    Some(soonest)
}
