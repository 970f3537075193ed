// Where a view finds its part, by the lengths of the memories alone.
ghost use Rattle.std.specs.Prelude.{◌≡◌, ℕ, List, length, IfOk};
ghost use Rattle.base.specs.Refusals.{number_of};
ghost use Rattle.engine.specs.Calls.{recipe};
ghost use Rattle.sharing.specs.Calls.{view_number};
ghost use Rattle.sharing.specs.view.Given.{SeenAt};

use base::refusal::Refusal;
use recipe::lay_out;

// Where a view finds its part: where the part begins and how many words it has.
#[derive(Clone, Copy)]
pub struct Seen {
    pub start: usize,
    pub words: usize,
}

// A view at a processor's memory, by the lengths of both tenants' memories.
pub fn view_at(
    encoded: &[u8],
    first: usize,
    second: usize,
    tenant: u32,
    processor: u32,
) -> Result<Seen, Refusal>
    ensures { ((a b : List ℕ) → first ≡ length a → second ≡ length b
        → number_of result ≡ view_number encoded.now a b tenant processor)
        × IfOk result (SeenAt (recipe encoded.now 0) first second processor) }
{
    let layout = lay_out(encoded, 0)?; // a view is the same on every route
    let cells = layout.sizes.cells;
    let processors = layout.sizes.processors;
    let all = processors * cells;
    if first != all || second != all {
        return Err(Refusal::Area);
    }
    let b = processor as usize;
    if tenant > 1 || b >= processors {
        return Err(Refusal::NoSuch);
    }
    Ok(Seen {
        start: b * cells,
        words: cells,
    })
}
