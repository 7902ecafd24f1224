// The layouts of the V/SMD 3200, declared once: block, options, UIB, error bytes, identity.
// A block becomes a task for its unit here, and nothing above the task knows where a byte of it stood.
// It judges nothing but whether a UIB can be read, and stores nothing.
#![tactic(auto)]

ghost use Rattle.std.specs.Prelude.{◌≡◌, ◌+◌, ◌≤◌, length};
ghost use Rattle.answers.specs.Numbers.{refusal_number};
ghost use Rattle.iopb.specs.Errors.{error_byte, error_in, error_table};
ghost use Rattle.iopb.specs.Identity.{identity_bytes};
ghost use Rattle.iopb.specs.Layout.{block_at, options_of, uib_at};

use answers::Refusal;
use geometry::{Geometry, Volume};

mod ask;

pub use ask::{task, unit_at};

// The options byte, bit 7 down.
#[derive(Clone, Copy)]
pub struct Options {
    pub unit: bool,
    pub volume: bool,
    pub link: bool,
    pub logical: bool,
    pub reserve: bool,
    pub disable: bool,
    pub interrupt: bool,
    pub correct: bool,
}

// The block's 28 bytes by what they mean. `number` is the logical sector number, in the bytes of cylinder, head and sector.
#[derive(Clone, Copy)]
pub struct Block {
    pub command: u8,
    pub options: Options,
    pub cylinder: u16,
    pub head: u8,
    pub sector: u8,
    pub number: u32,
    pub count: u16,
    pub address: u32,
    pub memory_type: u8,
    pub modifier: u8,
    pub level: u8,
    pub normal_vector: u8,
    pub error_vector: u8,
    pub link: u32,
    pub link_memory_type: u8,
    pub link_modifier: u8,
    pub elements: u8,
}

impl Options {
    pub fn of(byte: u8) -> Options
        ensures { result ≡ options_of byte }
    {
        Options {
            unit: byte & 0x80 != 0,
            volume: byte & 0x40 != 0,
            link: byte & 0x20 != 0,
            logical: byte & 0x10 != 0,
            reserve: byte & 0x08 != 0,
            disable: byte & 0x04 != 0,
            interrupt: byte & 0x02 != 0,
            correct: byte & 0x01 != 0,
        }
    }
}

impl Block {
    // The block at an address of host memory, copied out.
    pub fn read(host: &[u8], at: usize) -> Block
        requires { at + 28 ≤ length host.now }
        ensures { result ≡ block_at host.now at }
    {
        let options = Options::of(host[at + 1]);
        Block {
            command: host[at],
            options,
            cylinder: wire::be16(host, at + 4),
            head: host[at + 6],
            sector: host[at + 7],
            number: wire::be32(host, at + 4),
            count: wire::be16(host, at + 8),
            address: wire::be32(host, at + 10),
            memory_type: host[at + 14],
            modifier: host[at + 15],
            level: host[at + 16],
            normal_vector: host[at + 17],
            error_vector: host[at + 19],
            link: wire::be32(host, at + 20),
            link_memory_type: host[at + 24],
            link_modifier: host[at + 25],
            elements: host[at + 27],
        }
    }
}

// The geometry that the UIB at an address of host memory gives, not yet judged.
pub fn uib(host: &[u8], at: usize) -> Geometry
    requires { at + 18 ≤ length host.now }
    ensures { result ≡ uib_at host.now at }
{
    let volume0 = Volume::new(host[at], host[at + 1]);
    let volume1 = Volume::new(host[at + 2], host[at + 3]);
    let by_head = host[at + 14] & 0x04 != 0;
    Geometry::new(
        wire::be16(host, at + 12),
        host[at + 4] as u16,
        wire::be16(host, at + 6),
        volume0,
        volume1,
    )
    .with_increment(by_head)
}

// The error byte of a refusal: that of the manual's line for it, or FF where there is none.
#[tactic(auto, unfolding(crate::specs::Errors::error_in))]
fn error_of(refusal: Refusal) -> u8
    ensures { result ≡ error_in error_table (refusal_number refusal) }
{
    match refusal {
        Refusal::CommandUnknown => 0x14,
        Refusal::NotInitialized => 0x40,
        Refusal::UibMisplaced | Refusal::DataMisplaced => 0x62,
        Refusal::UibOutsideLimits => 0x51,
        Refusal::VolumeAbsent => 0x21,
        Refusal::SectorOutside => 0x16,
        Refusal::Unreadable => 0x13,
        Refusal::DriveHeld => 0x2E,
        Refusal::CountZero
        | Refusal::ImageShort
        | Refusal::ListBad
        | Refusal::TracksTaken
        | Refusal::TableFull => 0xFF,
    }
}

// The error byte of an answer: 00 at status 80.
pub fn error_byte(answer: Result<(), Refusal>) -> u8
    ensures { result ≡ error_byte answer }
{
    match answer {
        Ok(()) => 0,
        Err(refusal) => error_of(refusal),
    }
}

// What a handshake reports in words 2 to 7.
pub fn identity() -> [u8; 12]
    ensures { result ≡ identity_bytes }
{
    [
        0x32, 0x00, 0x01, 0x03, 0x00, 0x00, 0x06, 0x11, 0x07, 0xC3, 0x00, 0x00,
    ]
}
