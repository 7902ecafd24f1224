// What a block asks, free of any block's layout: the one form in which every product's block is judged and carried out.
// A product's own crate makes a task of its block, for the unit that it names; nothing here reads a byte.
// What a run does besides (links, interrupts, events) is no part of it.
#![tactic(auto)]

use geometry::{Geometry, VolumeNumber};

// Where a request begins in its volume: a logical number, or a physical address whose head is counted from the start head.
#[derive(Clone, Copy)]
pub enum Start {
    Logical(u32),
    Physical {
        cylinder: u16,
        head: u16,
        sector: u16,
    },
}

#[derive(Clone, Copy)]
pub struct Target {
    pub volume: VolumeNumber,
    pub start: Start,
}

// Where in host memory the data lies: in one piece, or in the elements of a list.
#[derive(Clone, Copy)]
pub enum Buffer {
    Piece(u32),
    List { at: u32, elements: u8 },
}

// Sectors to host memory, or from it. To host memory, `past_marks` moves sectors that are marked unreadable too; from it,
// marks are ignored in any case.
#[derive(Clone, Copy)]
pub struct Move {
    pub to_host: bool,
    pub past_marks: bool,
    pub target: Target,
    pub count: u16,
    pub buffer: Buffer,
}

// A track over the whole drive, and where the bytes of one sector lie that are to fill it.
#[derive(Clone, Copy)]
pub struct Track {
    pub cylinder: u16,
    pub head: u16,
    pub buffer: u32,
}

// A bad track and the one that is to serve for it, both counted over the whole drive.
#[derive(Clone, Copy)]
pub struct Pair {
    pub bad_cylinder: u16,
    pub bad_head: u8,
    pub spare_cylinder: u16,
    pub spare_head: u8,
}

// `Initialize` has the geometry as its block of numbers gave it, where that block could be read.
#[derive(Clone, Copy)]
pub enum Task {
    Unknown,
    Move(Move),
    Handshake,
    Initialize(Option<Geometry>),
    Restore,
    Seek(Target),
    Format(Track),
    Map(Pair),
}
