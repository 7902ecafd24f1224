// The session, a field at a time: what is held is lent, and the lines that a field makes stand in a lent buffer.
// What a field does to memory, images and units is board's run, by its promise; here are fields, states and text.
// It reads no input and writes no output, and it trusts no caller: without room nothing is done.
#![tactic(auto)]

ghost use Rattle.std.specs.Prelude.{◌≡◌};
ghost use Rattle.transcript.specs.Session.{begin};
ghost use Rattle.transcript.specs.Steps.{Fits, SessionRoom, lent_of, spoken, spoken_of, state_of, units_in};
ghost use Rattle.wire.specs.Promise.{Says};

use board::Units;
use unit::Unit;

mod field;
mod lines;
mod play;

pub use field::wanted;

// The most that the length of a field may be, and the room that the lines of a run may want.
pub const MOST_BYTES: usize = 16384;

pub const TEXT_ROOM: usize = 8192;

// What is known between fields of what is lent: how much of each buffer is the memory's or the image's, and the place in the input.
#[derive(Clone, Copy)]
pub struct State {
    pub host: usize,
    pub image0: usize,
    pub image1: usize,
    pub at: u64,
}

// What comes after a field: more of the session, its end, or nothing, since there was no room and nothing was done.
#[derive(Clone, Copy)]
pub enum Next {
    On(State),
    Over,
    NoRoom,
}

// What a field came to, with the length of the text that it said.
#[derive(Clone, Copy)]
pub struct Said {
    pub next: Next,
    pub text: usize,
}

// Where a session begins: nothing of the lent buffers is in use, and nothing of the input is read.
pub fn start() -> State
    ensures { result ≡ state_of begin 0 }
{
    State {
        host: 0,
        image0: 0,
        image1: 0,
        at: 0,
    }
}

// The units that a session begins with.
pub fn units() -> Units
    ensures { result ≡ units_in begin }
{
    Units {
        zero: Unit::blank(),
        one: Unit::blank(),
    }
}

fn fits(buffer: &[u8], used: usize) -> bool
    ensures { Says result (Fits used buffer.now) }
{
    used <= MOST_BYTES && MOST_BYTES <= buffer.len()
}

fn has_room(host: &[u8], image0: &[u8], image1: &[u8], text: &[u8], s: State) -> bool
    ensures { let before = lent_of host.now image0.now image1.now text.now (units_in begin) in
        Says result (SessionRoom s before) }
{
    fits(host, s.host)
        && fits(image0, s.image0)
        && fits(image1, s.image1)
        && TEXT_ROOM <= text.len()
        // the place after any field is a number of 64 bits
        && s.at <= 0xFFFF_FFFF_FFFF_BFFC
}

// Hears what was read of a field, or of the input's end, and leaves its lines at the start of the text buffer.
pub fn step(
    field: &[u8],
    host: &mut [u8],
    image0: &mut [u8],
    image1: &mut [u8],
    text: &mut [u8],
    units: &mut Units,
    s: State,
) -> Said
    ensures { let before = lent_of host.old image0.old image1.old text.old units.old in
        let after = lent_of host.new image0.new image1.new text.new units.new in
        spoken_of result after ≡ spoken field.now s before }
{
    if !has_room(host, image0, image1, text, s) {
        return Said {
            next: Next::NoRoom,
            text: 0,
        };
    }
    if field.is_empty() {
        return Said {
            next: Next::Over,
            text: 0,
        };
    }
    if !field::is_field(field) {
        return Said {
            next: Next::Over,
            text: lines::put_refusal(text, s.at),
        };
    }
    play::hear(field, host, image0, image1, text, units, s)
}
