// The view at a processor's memory, lent both tenants' memories and nothing else: its number, and the part of the named tenant's memories.
ghost use Rattle.std.specs.Prelude.{◌≡◌};
ghost use Rattle.sharing.specs.Calls.{view_number, view_part};

pub mod inner; // inner.rt: where a view finds its part

use base::refusal::number_of;

// The number of a view at a processor's memory.
pub fn view_number(
    encoded: &[u8],
    first: &[u32],
    second: &[u32],
    tenant: u32,
    processor: u32,
) -> u32
    ensures { result ≡ view_number encoded.now first.now second.now tenant processor }
{
    let seen = inner::view_at(encoded, first.len(), second.len(), tenant, processor);
    number_of(&seen)
}

// The part of the named tenant's memories that is the processor's; empty at any refusal.
pub fn view<'a>(
    encoded: &[u8],
    first: &'a [u32],
    second: &'a [u32],
    tenant: u32,
    processor: u32,
) -> &'a [u32]
    ensures { result.now ≡ view_part encoded.now first.now second.now tenant processor }
{
    let seen = match inner::view_at(encoded, first.len(), second.len(), tenant, processor) {
        Ok(seen) => seen,
        Err(_) => return &first[0..0],
    };
    let start = seen.start;
    let words = seen.words;
    if tenant == 0 {
        return &first[start..start + words];
    }
    &second[start..start + words]
}
