// Big-endian words read from and stored into a byte slice, the copy of a run of bytes between two slices, the one test whether a range lies in
// host memory, and the lesser of two numbers. Every layout, transfer and place above is made of these; the laws that crates share stand beside them.
// It knows no layout and no drive, and it leaves every byte that it does not name as it was.
#![tactic(auto)]

ghost use Rattle.std.specs.Prelude.{◌≡◌, ◌+◌, ◌≤◌, ◌<◌, min, length};
ghost use Rattle.wire.specs.Copy.{copied};
ghost use Rattle.wire.specs.Memory.{InMemory};
ghost use Rattle.wire.specs.Promise.{Says};
ghost use Rattle.wire.specs.Words.{be16, be32};
ghost use Rattle.wire.specs.Storing.{with16, with32};

// The 16-bit word at `at`.
#[tactic(auto, unfolding(crate::specs::Words::word))]
pub fn be16(bytes: &[u8], at: usize) -> u16
    requires { at + 2 ≤ length bytes.now }
    ensures { result ≡ be16 bytes.now at }
{
    u16::from_be_bytes([bytes[at], bytes[at + 1]])
}

// The 32-bit word at `at`.
#[tactic(auto, unfolding(crate::specs::Words::word))]
pub fn be32(bytes: &[u8], at: usize) -> u32
    requires { at + 4 ≤ length bytes.now }
    ensures { result ≡ be32 bytes.now at }
{
    u32::from_be_bytes([bytes[at], bytes[at + 1], bytes[at + 2], bytes[at + 3]])
}

// Stores a 16-bit word at `at`.
#[tactic(auto, unfolding(crate::specs::Storing::stored))]
pub fn put16(bytes: &mut [u8], at: usize, value: u16)
    requires { at + 2 ≤ length bytes.old }
    ensures { bytes.new ≡ with16 bytes.old at value }
{
    let [high, low] = value.to_be_bytes();
    bytes[at] = high;
    bytes[at + 1] = low;
}

// Stores a 32-bit word at `at`.
#[tactic(auto, unfolding(crate::specs::Storing::stored))]
pub fn put32(bytes: &mut [u8], at: usize, value: u32)
    requires { at + 4 ≤ length bytes.old }
    ensures { bytes.new ≡ with32 bytes.old at value }
{
    let [first, second, third, last] = value.to_be_bytes();
    bytes[at] = first;
    bytes[at + 1] = second;
    bytes[at + 2] = third;
    bytes[at + 3] = last;
}

// Copies the n bytes of `bytes` from `from` on over those of `into` from `to` on. The loop has no test but its own, which is what the optimizer needs
// to move many bytes a turn; the library's `copy_from_slice` would want `memmove` of whoever links the archive, and does not compile for a processor of 32 bits.
pub fn copy(bytes: &[u8], from: usize, into: &mut [u8], to: usize, n: usize)
    requires { (from + n ≤ length bytes.now) × (to + n ≤ length into.old) }
    ensures { into.new ≡ copied bytes.now from into.old to n }
{
    for i in 0..n {
        into[to + i] = bytes[from + i];
    }
}

// Whether so many bytes from an address on lie in host memory, from an even address on.
pub fn holds(host: &[u8], at: u32, bytes: u64) -> bool
    ensures { Says result (InMemory host.now at bytes) }
{
    at % 2 == 0 && lies_inside(host.len() as u64, at, bytes)
}

// Addresses have 32 bits and lengths are the memory's: they are compared in 64 bits, by what is left, so that no sum is made
// that could be cut off.
fn lies_inside(long: u64, at: u32, bytes: u64) -> bool
    ensures { Says result (at + bytes ≤ long) }
{
    bytes <= long && u64::from(at) <= long - bytes
}

// The lesser of two numbers.
pub fn lesser(a: u64, b: u64) -> u64
    ensures { result ≡ min a b }
{
    a.min(b)
}
