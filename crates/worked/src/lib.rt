// A modeller's own recipe, computed by the checker: specs/Harbour.antt. docs/MODELLERS.md walks through it.
#![tactic(auto)]

ghost use Rattle.std.specs.Prelude.{◌≡◌};

// A crate is checked where it has a function.
pub fn cells() -> u32
    ensures { result ≡ 30 }
{
    30
}
