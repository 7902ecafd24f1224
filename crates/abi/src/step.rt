// One block by itself, for firmware that makes a chain of its own: it bounds the stack and the time that a call takes, and can go on later.
// What the block does is board's, by its promise; here are its bytes: the records, and what the caller goes by next.
// It follows no link, and nothing is changed where it is refused.
ghost use Rattle.std.proofs.Math.Logic.{ite};
ghost use Rattle.std.specs.Prelude.{◌≡◌, ◌+◌, ◌*◌, ◌≤◌, length};
ghost use Rattle.answers.specs.RunNumbers.{block_number};
ghost use Rattle.abi.specs.Calls.{called_of, lent_of, record_left};
ghost use Rattle.abi.specs.Stepping.{block_bad, goes_on, stepped_bytes, stepped_once};
ghost use Rattle.abi.specs.Unread.{filled_in};
ghost use Rattle.wire.proofs.Decided.{in_memory?};
ghost use Rattle.wire.specs.Storing.{written};

use crate::{layouts, unread_units};
use answers::{Refusal, RunAnswer, block_number};
use board::{Stepped, Units};
use unit::Controller;

// Whether the block's link is to be followed.
fn goes_on(answer: Result<(), Refusal>, link: bool) -> bool
    ensures { result ≡ goes_on answer link }
{
    answer.is_ok() && link
}

// Leaves the records, and what the caller goes by next.
fn leave(record0: &mut [u8], record1: &mut [u8], stepped: &mut [u8], s: Stepped, units: &Units)
    requires { (276 ≤ length record0.old) × ((276 ≤ length record1.old) × (16 ≤ length stepped.old)) }
    ensures zero { let before = record0.old in
        record0.new ≡ record_left before (filled_in before units.now.zero) }
    ensures one { let before = record1.old in
        record1.new ≡ record_left before (filled_in before units.now.one) }
    ensures told { stepped.new ≡ written stepped.old 0
        (stepped_bytes (block_number s.answer) (goes_on s.answer s.linked) s.sectors s.link) }
{
    layouts::leave_record(record0, &units.zero);
    layouts::leave_record(record1, &units.one);
    let answer = s.answer;
    let follow = layouts::flag(goes_on(answer, s.linked));
    layouts::put_outcome(
        stepped,
        block_number(answer),
        follow,
        u32::from(s.sectors),
        s.link,
    );
}

// A step, once the buffers of the layouts and the event buffer are known to be long enough. A block that cannot be fetched has the paper's number.
pub(crate) fn step(
    host: &mut [u8],
    image0: &mut [u8],
    image1: &mut [u8],
    events: &mut [u8],
    record0: &mut [u8],
    record1: &mut [u8],
    stepped: &mut [u8],
    c: Controller,
    at: u32,
    i: u32,
) -> u32
    requires { (276 ≤ length record0.old) × ((276 ≤ length record1.old) × ((16 ≤ length stepped.old) ×
        (8 * i + 8 ≤ length events.old))) }
    ensures { let before = lent_of host.old image0.old image1.old events.old record0.old
        record1.old stepped.old in
        let after = lent_of host.new image0.new image1.new events.new record0.new
        record1.new stepped.new in
        called_of result after ≡ ite (in_memory? host.old at 28) (stepped_once c at i before) (called_of block_bad before) }
{
    let mut units = unread_units();
    layouts::unit_in(record0, &mut units.zero);
    layouts::unit_in(record1, &mut units.one);
    let done = board::run_one(host, image0, image1, events, &mut units, c, at, i);
    match done {
        Some(s) => {
            leave(record0, record1, stepped, s, &units);
            0
        }
        None => u32::from(RunAnswer::FirstBad.number()),
    }
}
