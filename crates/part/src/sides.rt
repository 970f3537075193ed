// What one byte tells of a message: which of its ends are a processor's, and in that processor's part how far the message is: 0 not sent, or not there
// yet, 1 sent, 2 delivered, 3 taken.
ghost use Rattle.std.specs.Prelude.{◌≡◌, Bool, ◌+◌, ◌*◌, ◌<◌, length, get_or, set, eqb};
ghost use Rattle.base.specs.Tests.{one, pick};

// Whether the processor takes the message, by the byte of its ends: 1 where it sends it, and 2 where it takes it.
pub fn is_taker(side: u8) -> bool
    ensures { (sends taken : Bool) → side ≡ one sends + 2 * one taken → result ≡ taken }
{
    side >= 2
}

// A message arrives: it is delivered, where it did not come before.
#[tactic(auto, unfolding(base::specs::Tests::pick))]
pub fn arrived(marks: &mut [u8], at: usize) -> bool
    requires { at < length marks.old }
    ensures { (result ≡ eqb (get_or marks.old at 0) 0) × (marks.new ≡ pick result (set marks.old at 2) marks.old) }
{
    if marks[at] != 0 {
        return false;
    }
    marks[at] = 2;
    true
}

// A message that a tile gathered is taken.
pub fn gathered(marks: &mut [u8], at: usize)
    requires { at < length marks.old }
    ensures { marks.new ≡ set marks.old at 3 }
{
    marks[at] = 3;
}
