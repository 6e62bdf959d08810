// Bytes, parts of them, and the numbers that they spell, little-endian (01, 'Match file').
#![tactic(auto)]

ghost use Rattle.std.specs.Prelude.{◌≡◌, [], ◌∷◌, get_or};
ghost use Rattle.encoding.specs.Bytes.{value};
ghost use Rattle.encoding.specs.Bytes as spec;

pub mod store;

// The number that four bytes spell.
pub fn number32(b0: u8, b1: u8, b2: u8, b3: u8) -> u32
    ensures { result ≡ value (b0 ∷ b1 ∷ b2 ∷ b3 ∷ []) }
{
    // Not `from_le_bytes`: where the sign is asked, the compiler then loads the last byte by itself, which is 6 instructions more for each instruction of a body.
    b0 as u32 + 256 * (b1 as u32 + 256 * (b2 as u32 + 256 * b3 as u32))
}

// A number of 32 bits as an i32: `cast_signed` under a promise of its own.
pub fn signed(n: u32) -> i32
    ensures { result ≡ spec.signed n }
{
    n.cast_signed()
}

// The byte at a position, 0 past the end.
pub fn byte(bytes: &[u8], at: usize) -> u8
    ensures { result ≡ get_or bytes.now at 0 }
{
    bytes.get(at).copied().unwrap_or(0)
}

// The bytes from a position on, that many or as many as there are.
pub fn part(bytes: &[u8], start: usize, length: usize) -> &[u8]
    ensures { result.now ≡ spec.part bytes.now start length }
{
    let rest = &bytes[start.min(bytes.len())..];
    &rest[..length.min(rest.len())]
}

// The number in the two bytes at a position. It is a twin of the next: one function of the number of bytes copies as many as there are, and takes 20 instructions more.
pub fn number16_at(bytes: &[u8], at: usize) -> u16
    ensures { result ≡ value (spec.part bytes.now at 2) }
{
    let two = part(bytes, at, 2);
    u16::from_le_bytes([byte(two, 0), byte(two, 1)])
}

// The number in the four bytes at a position.
pub fn number32_at(bytes: &[u8], at: usize) -> u32
    ensures { result ≡ value (spec.part bytes.now at 4) }
{
    let four = part(bytes, at, 4);
    number32(byte(four, 0), byte(four, 1), byte(four, 2), byte(four, 3))
}
