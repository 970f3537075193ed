// Numbers from one on, below another: in a row of a nest with bounds, where a distance reads a cell of the shape.
ghost use Rattle.std.specs.Prelude.{◌≡◌, ltb, leb};
ghost use Rattle.base.specs.Tests.{◌and◌};

// Whether a number is one of them.
pub fn has(from: usize, to: usize, number: usize) -> bool
    ensures { result ≡ (leb from number and ltb number to) }
{
    if number < from {
        return false;
    }
    number < to
}
