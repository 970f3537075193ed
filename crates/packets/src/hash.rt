// FNV-1a of 32 bits.
ghost use Rattle.std.specs.Prelude.{◌≡◌};
ghost use Rattle.packets.specs.Fingerprint.{mix, mix_all};

fn step(hash: u32, byte: u8) -> u32
    ensures { result ≡ mix hash byte }
{
    (hash ^ u32::from(byte)).wrapping_mul(16777619)
}

// The hash after more bytes.
pub fn mixed(hash: u32, bytes: &[u8]) -> u32
    ensures { result ≡ mix_all hash bytes.now }
{
    let mut now = hash;
    for &byte in bytes {
        now = step(now, byte);
    }
    now
}
