// The request that a block makes, free of its layout.
ghost use Rattle.std.specs.Prelude.{◌≡◌, ◌+◌, ◌≤◌, length, cond};
ghost use Rattle.unit.specs.declared.UnitNumber.{UnitNumber};
ghost use Rattle.iopb.specs.Layout.{block_at};
ghost use Rattle.wire.specs.Memory.{InMemory};
ghost use Rattle.wire.specs.Promise.{Says};
ghost use Rattle.iopb.specs.Ask.{move_of, pair_of, shape_at, start_of, target_of, task_of, track_asked, unit_asked};

use crate::{Block, Options, uib};
use geometry::{Geometry, VolumeNumber};
use request::{Buffer, Move, Pair, Start, Target, Task, Track};
use unit::UnitNumber;

// The unit that the block at an address names, told without the rest of it: whoever picks a drive by it need not keep a block.
pub fn unit_at(host: &[u8], at: usize) -> UnitNumber
    requires { at + 28 ≤ length host.now }
    ensures { result ≡ unit_asked (block_at host.now at) }
{
    unit(Options::of(host[at + 1]))
}

fn unit(options: Options) -> UnitNumber
    ensures { result ≡ cond options.unit UnitNumber.One UnitNumber.Zero }
{
    if options.unit {
        UnitNumber::One
    } else {
        UnitNumber::Zero
    }
}

// What a block asks of its unit; for command 87 its UIB is read, where it can be.
#[tactic(auto, unfolding(crate::specs::Ask::task_of))]
pub fn task(b: Block, host: &[u8]) -> Task
    ensures { result ≡ task_of host.now b }
{
    match b.command {
        0x81 => Task::Move(moving(b, true, Buffer::Piece(b.address))),
        0x82 => Task::Move(moving(b, false, Buffer::Piece(b.address))),
        0x86 => Task::Handshake,
        0x87 => Task::Initialize(shape(host, b.address)),
        0x89 => Task::Restore,
        0x8A => Task::Seek(target(b)),
        0x8C => Task::Format(track(b)),
        0xA1 => Task::Move(moving(b, true, list(b))),
        0xA2 => Task::Move(moving(b, false, list(b))),
        0x85 => Task::Map(pair(b)),
        _ => Task::Unknown,
    }
}

fn moving(b: Block, to_host: bool, buffer: Buffer) -> Move
    ensures { result ≡ move_of b to_host buffer }
{
    Move {
        to_host,
        past_marks: b.options.disable,
        target: target(b),
        count: b.count,
        buffer,
    }
}

fn target(b: Block) -> Target
    ensures { result ≡ target_of b }
{
    let volume = if b.options.volume {
        VolumeNumber::One
    } else {
        VolumeNumber::Zero
    };
    Target {
        volume,
        start: start(b),
    }
}

fn start(b: Block) -> Start
    ensures { result ≡ start_of b }
{
    if b.options.logical {
        Start::Logical(b.number)
    } else {
        Start::Physical {
            cylinder: b.cylinder,
            head: u16::from(b.head),
            sector: u16::from(b.sector),
        }
    }
}

fn list(b: Block) -> Buffer
    ensures { result ≡ Buffer.List b.address b.elements }
{
    Buffer::List {
        at: b.address,
        elements: b.elements,
    }
}

fn track(b: Block) -> Track
    ensures { result ≡ track_asked b }
{
    Track {
        cylinder: b.cylinder,
        head: u16::from(b.head),
        buffer: b.address,
    }
}

// The spare's cylinder stands where others have a count, and its head in the first byte of the address.
fn pair(b: Block) -> Pair
    ensures { result ≡ pair_of b }
{
    Pair {
        bad_cylinder: b.cylinder,
        bad_head: b.head,
        spare_cylinder: b.count,
        spare_head: (b.address / 16_777_216) as u8,
    }
}

fn holds_uib(host: &[u8], address: u32) -> bool
    ensures { Says result (InMemory host.now address 18) }
{
    wire::holds(host, address, 18)
}

fn shape(host: &[u8], address: u32) -> Option<Geometry>
    ensures { result ≡ shape_at host.now address }
{
    if !holds_uib(host, address) {
        return None;
    }
    Some(uib(host, address as usize))
}
