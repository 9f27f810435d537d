// Bytes in lent slices: little-endian fields read and written at a place, ranges compared, zeroed, copied from another slice.
//
// A contract says what is there at exit by `put`, `part` and the other definitions of specs/, whose laws callers cite.
#![tactic(auto)]

ghost use Rattle.std.specs.Prelude.{◌≡◌, ◌+◌, ◌-◌, ◌≤◌, ◌<◌, length, eqb};
ghost use Rattle.buffer.specs.Field.{le16, le32, le64, read16, read32, read64};
ghost use Rattle.buffer.specs.Part.{part, put};
ghost use Rattle.buffer.specs.Same.{same};
ghost use Rattle.buffer.specs.Zero.{all_zero, zeroed};

// The number that the two bytes at `at` spell, the lowest first.
// Kept: six functions, since std has `from_le_bytes` and `to_le_bytes` at each type and in no trait: one generic function would need a trait of
// ours, whose impls are these bodies.
#[tactic(auto, unfolding(crate::specs::Field::read_le))]
pub fn read_u16(s: &[u8], at: usize) -> u16
    requires { at + 2 ≤ length s.now }
    ensures { result ≡ read16 s.now at }
{
    u16::from_le_bytes([s[at], s[at + 1]])
}

// The number that the four bytes at `at` spell, the lowest first.
#[tactic(auto, unfolding(crate::specs::Field::read_le))]
pub fn read_u32(s: &[u8], at: usize) -> u32
    requires { at + 4 ≤ length s.now }
    ensures { result ≡ read32 s.now at }
{
    u32::from_le_bytes([s[at], s[at + 1], s[at + 2], s[at + 3]])
}

// The number that the eight bytes at `at` spell, the lowest first.
#[tactic(auto, unfolding(crate::specs::Field::read_le))]
pub fn read_u64(s: &[u8], at: usize) -> u64
    requires { at + 8 ≤ length s.now }
    ensures { result ≡ read64 s.now at }
{
    u64::from_le_bytes([
        s[at],
        s[at + 1],
        s[at + 2],
        s[at + 3],
        s[at + 4],
        s[at + 5],
        s[at + 6],
        s[at + 7],
    ])
}

// Writes the two bytes of n at `at`, the lowest first.
#[tactic(auto, using(crate::proofs::Fields::le_bytes))]
pub fn write_u16(s: &mut [u8], at: usize, n: u16)
    requires { at + 2 ≤ length s.old }
    ensures { s.new ≡ put s.old at (le16 n) }
{
    copy_to(s, at, &u16::to_le_bytes(n));
}

// Writes the four bytes of n at `at`, the lowest first.
#[tactic(auto, using(crate::proofs::Fields::le_bytes))]
pub fn write_u32(s: &mut [u8], at: usize, n: u32)
    requires { at + 4 ≤ length s.old }
    ensures { s.new ≡ put s.old at (le32 n) }
{
    copy_to(s, at, &u32::to_le_bytes(n));
}

// Writes the eight bytes of n at `at`, the lowest first.
#[tactic(auto, using(crate::proofs::Fields::le_bytes))]
pub fn write_u64(s: &mut [u8], at: usize, n: u64)
    requires { at + 8 ≤ length s.old }
    ensures { s.new ≡ put s.old at (le64 n) }
{
    copy_to(s, at, &u64::to_le_bytes(n));
}

// Whether a and b have the same bytes.
#[tactic(auto, using(crate::proofs::Tests::pointwise_same))]
pub fn same(a: &[u8], b: &[u8]) -> bool
    ensures { result ≡ same a.now b.now }
{
    a == b
}

// Whether the bytes of s at `at` are those of key.
#[tactic(auto, using(crate::proofs::Tests::pointwise_same), unfolding(crate::specs::Part::part))]
pub fn same_at(s: &[u8], at: usize, key: &[u8]) -> bool
    requires { at + length key.now ≤ length s.now }
    ensures { result ≡ same (part s.now at (length key.now)) key.now }
{
    &s[at..at + key.len()] == key
}

// Whether s has only zeros: all bits are gathered, with no exit, so that it compiles to vector code.
fn only_zeros(s: &[u8]) -> bool
    ensures { result ≡ all_zero s.now }
{
    s.iter().fold(0, |bits, byte| bits | byte) == 0
}

// Whether s has only zeros from `from` up to `to`: 64 bytes at a time, with an exit after each block.
pub fn all_zero(s: &[u8], from: usize, to: usize) -> bool
    requires { (from ≤ to) × (to ≤ length s.now) }
    ensures { result ≡ all_zero (part s.now from (to - from)) }
{
    let (blocks, rest) = s[from..to].as_chunks::<64>();
    blocks.iter().all(|block| only_zeros(block)) && only_zeros(rest)
}

// Zeros from `from` up to `to`; none where `to` is not above `from`.
// Kept: a `for`, since std's `fill` takes 1.3 to 1.6 times as long up to 256 bytes.
pub fn fill_zero(s: &mut [u8], from: usize, to: usize)
    requires { to ≤ length s.old }
    ensures { s.new ≡ zeroed s.old from to }
{
    if from < to {
        for byte in s[from..to].iter_mut() {
            *byte = 0;
        }
    }
}

// Copies src to s at `at`.
pub fn copy_to(s: &mut [u8], at: usize, src: &[u8])
    requires { at + length src.now ≤ length s.old }
    ensures { s.new ≡ put s.old at src.now }
{
    s[at..at + src.len()].copy_from_slice(src);
}
