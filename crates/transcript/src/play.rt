// What a good field does: memory or an image is replaced, or a run is made and told.
ghost use Rattle.std.specs.Prelude.{◌≡◌, ◌+◌, ◌≤◌, length};
ghost use Rattle.transcript.specs.Session.{Field, bytes_in, ending_of, heard, long_of, run_heard, tag_of};
ghost use Rattle.transcript.specs.Steps.{SessionRoom, held_in, lent_of, on_with, spoken_of, went};

use crate::{Next, Said, State, lines};
use board::Units;
use unit::Controller;

// A field without text: the session goes on with other lengths, from a later place.
fn on(s: State) -> Said
    ensures { result ≡ on_with s.host s.image0 s.image1 s.at 0 }
{
    Said {
        next: Next::On(s),
        text: 0,
    }
}

// A run on what is held, with an event buffer of its own, and its lines.
fn run(
    field: &[u8],
    host: &mut [u8],
    image0: &mut [u8],
    image1: &mut [u8],
    text: &mut [u8],
    units: &mut Units,
    s: State,
    at: u64,
) -> Said
    requires { SessionRoom s (lent_of host.old image0.old image1.old text.old units.old) ×
        ((long_of field.now ≡ 5) × (8 ≤ length field.now)) }
    ensures { let before = lent_of host.old image0.old image1.old text.old units.old in
        let after = lent_of host.new image0.new image1.new text.new units.new in
        spoken_of result after ≡ went (run_heard (ending_of (held_in s before) (bytes_in field.now))) at before }
{
    let first = wire::be32(field, 3);
    let allowance = field[7] as u32;
    let mut events = [0u8; 512];
    let done = board::run(
        &mut host[..s.host],
        &mut image0[..s.image0],
        &mut image1[..s.image1],
        &mut events,
        units,
        Controller::First,
        first,
        allowance,
    );
    let next = lines::put_run(text, done.answer.number(), done.blocks, done.sectors);
    let end = lines::put_blocks(text, next, &events, done.blocks);
    Said {
        next: Next::On(State { at, ..s }),
        text: end,
    }
}

pub(crate) fn hear(
    field: &[u8],
    host: &mut [u8],
    image0: &mut [u8],
    image1: &mut [u8],
    text: &mut [u8],
    units: &mut Units,
    s: State,
) -> Said
    requires { SessionRoom s (lent_of host.old image0.old image1.old text.old units.old) × Field field.now }
    ensures { let before = lent_of host.old image0.old image1.old text.old units.old in
        let after = lent_of host.new image0.new image1.new text.new units.new in
        spoken_of result after ≡ went (heard (held_in s before) (tag_of field.now) (bytes_in field.now))
        (s.at + (3 + long_of field.now)) before }
{
    let long = wire::be16(field, 1) as usize;
    let at = s.at + (3 + long as u64);
    match field[0] {
        1 => {
            host[..long].copy_from_slice(&field[3..3 + long]);
            on(State {
                host: long,
                at,
                ..s
            })
        }
        2 => {
            image0[..long].copy_from_slice(&field[3..3 + long]);
            on(State {
                image0: long,
                at,
                ..s
            })
        }
        3 => {
            image1[..long].copy_from_slice(&field[3..3 + long]);
            on(State {
                image1: long,
                at,
                ..s
            })
        }
        _ => run(field, host, image0, image1, text, units, s, at),
    }
}
