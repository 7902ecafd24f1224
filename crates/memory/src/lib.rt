// The elements of a list in host memory: they are judged, and copied out.
// A list's place is tested before any of it is read, and the sum of its byte counts is made in 64 bits.
// It changes nothing and knows no block and no drive.
#![tactic(auto)]

ghost use Rattle.std.specs.Prelude.{◌&&◌, ◌≡◌, ◌+◌, ◌*◌, ◌≤◌, length};
ghost use Rattle.memory.specs.Lists.{element_at};
ghost use Rattle.memory.specs.Pieces.{filled, pieces_of};
ghost use Rattle.memory.specs.Scan.{Listing, Scanned, GoodCount, refusal_of};
ghost use Rattle.wire.specs.Memory.{InMemory};
ghost use Rattle.wire.specs.Promise.{Says};

use answers::Refusal;
use wire::holds;

// An element of a scatter or gather list.
#[derive(Clone, Copy)]
pub struct Element {
    pub bytes: u16,
    pub address: u32,
    pub memory_type: u8,
    pub modifier: u8,
}

impl Element {
    // The list element at an address of host memory.
    pub fn read(host: &[u8], at: usize) -> Element
        requires { at + 8 ≤ length host.now }
        ensures { result ≡ element_at host.now at }
    {
        Element {
            bytes: wire::be16(host, at),
            address: wire::be32(host, at + 2),
            memory_type: host[at + 6],
            modifier: host[at + 7],
        }
    }
}

// What one pass over a list finds: whether every byte count is good, whether every range is, and the sum of the counts.
#[derive(Clone, Copy)]
pub struct Seen {
    pub counts: bool,
    pub ranges: bool,
    pub sum: u64,
}

fn is_good(bytes: u16) -> bool
    ensures { Says result (GoodCount bytes) }
{
    bytes != 0 && bytes % 2 == 0
}

fn scan(host: &[u8], at: usize, elements: usize) -> Seen
    requires { (elements ≤ 64) × (at + 8 * elements ≤ length host.now) }
    ensures { Scanned host.now at elements result }
{
    let mut counts = true;
    let mut ranges = true;
    let mut sum: u64 = 0;
    for i in 0..elements {
        let e = Element::read(host, at + 8 * i);
        let bytes = u64::from(e.bytes);
        counts &= is_good(e.bytes);
        ranges &= holds(host, e.address, bytes);
        sum += bytes;
    }
    Seen {
        counts,
        ranges,
        sum,
    }
}

// What check 18, and what check 19, finds of a list that is not good.
#[derive(Clone, Copy, PartialEq, Eq)]
pub enum ListFault {
    Bad,
    RangeBad,
}

impl From<ListFault> for Refusal {
    ghost from_gives = { λ fault refusal. refusal ≡ refusal_of fault };

    fn from(fault: ListFault) -> Refusal {
        match fault {
            ListFault::Bad => Refusal::ListBad,
            ListFault::RangeBad => Refusal::DataMisplaced,
        }
    }
}

// The list's own number and place are tested before any of it is read.
pub fn list(host: &[u8], at: u32, elements: u8, bytes: u64) -> Result<(), ListFault>
    ensures { Listing host.now at elements bytes result }
{
    if !number_is_good(elements) {
        return Err(ListFault::Bad);
    }
    if !holds(host, at, 8 * (elements as u64)) {
        return Err(ListFault::Bad);
    }
    pass_over(host, at as usize, elements as usize, bytes)
}

fn number_is_good(elements: u8) -> bool
    ensures { Says result ((1 ≤ elements) × (elements ≤ 64)) }
{
    (1..=64).contains(&elements)
}

// A list of a good number at a good place, by what one pass over it finds.
fn pass_over(host: &[u8], at: usize, elements: usize, bytes: u64) -> Result<(), ListFault>
    requires { (1 ≤ elements) × (elements ≤ 64) × InMemory host.now at (8 * elements) }
    ensures { Listing host.now at elements bytes result }
{
    let seen = scan(host, at, elements);
    if !seen.counts {
        return Err(ListFault::Bad);
    }
    if seen.sum != bytes {
        return Err(ListFault::Bad);
    }
    if !seen.ranges {
        return Err(ListFault::RangeBad);
    }
    Ok(())
}

// The pieces of a list, copied out: byte counts and addresses, slot by slot, and 0 in every slot after the last.
#[derive(Clone, Copy)]
pub struct Pieces {
    pub lengths: [u32; 64],
    pub addresses: [u32; 64],
}

fn copied(host: &[u8], at: usize, n: usize) -> Pieces
    requires { (n ≤ 64) × (at + 8 * n ≤ length host.now) }
    ensures { result ≡ filled host.now at n }
{
    let mut lengths = [0u32; 64];
    let mut addresses = [0u32; 64];
    for i in 0..n {
        let e = Element::read(host, at + 8 * i);
        lengths[i] = u32::from(e.bytes);
        addresses[i] = e.address;
    }
    Pieces { lengths, addresses }
}

// A list that has too many elements, or does not lie in host memory, has no pieces.
pub fn copy_out(host: &[u8], at: u32, elements: u8) -> Pieces
    ensures { result ≡ pieces_of host.now at elements }
{
    let n = usize::from(elements);
    if 64 < n || !holds(host, at, 8 * u64::from(elements)) {
        return copied(host, 0, 0);
    }
    copied(host, at as usize, n)
}
