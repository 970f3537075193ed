// Text written to a lent space: each writer puts its bytes from a place on and answers the next place. Bytes past the space's end are counted
// and not written, so that a text written to a space of one byte tells its length alone.
#![tactic(auto)]

ghost use Rattle.std.specs.Prelude.{◌≡◌, [], ◌∷◌, ◌+◌, ◌≤◌, length};
ghost use Rattle.text.specs.Decimal.{decimal, signed};
ghost use Rattle.text.specs.Writing.{pen, write};

// One byte.
pub fn put(space: &mut [u8], at: usize, byte: u8) -> usize
    requires { at + 1 ≤ 4294967295 }
    ensures { pen result space.new ≡ write (pen at space.old) (byte ∷ []) }
{
    if at < space.len() {
        space[at] = byte;
    }
    at + 1
}

// Bytes, as they are.
pub fn put_bytes(space: &mut [u8], at: usize, bytes: &[u8]) -> usize
    requires { at + length bytes.now ≤ 4294967295 }
    ensures { pen result space.new ≡ write (pen at space.old) bytes.now }
{
    let mut place = at;
    for &byte in bytes {
        place = put(space, place, byte);
    }
    place
}

// A number in decimal: what its tenth is, then its last digit.
pub fn put_decimal(space: &mut [u8], at: usize, n: u32) -> usize
    requires { at + length (decimal n) ≤ 4294967295 }
    ensures { pen result space.new ≡ write (pen at space.old) (decimal n) }
{
    if n < 10 {
        return put(space, at, b'0' + n as u8);
    }
    let next = put_decimal(space, at, n / 10);
    put(space, next, b'0' + (n % 10) as u8)
}

// A number of either sign.
pub fn put_signed(space: &mut [u8], at: usize, z: i32) -> usize
    requires { at + length (signed z) ≤ 4294967295 }
    ensures { pen result space.new ≡ write (pen at space.old) (signed z) }
{
    if z < 0 {
        let next = put(space, at, b'-');
        return put_decimal(space, next, z.unsigned_abs());
    }
    put_decimal(space, at, z as u32)
}
