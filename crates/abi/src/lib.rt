// The static library for firmware in C or Rust: a run, a block by itself, an inspection, and where a sector stands, on byte slices and numbers.
// Records and outcomes cross as bytes, by the layouts of specs/Layouts; what is done with them is board's, by its promise.
// A buffer that is too short for its layout is refused, and nothing is changed. That pointers are good and apart only the caller knows.
#![tactic(auto)]

ghost use Rattle.std.specs.Prelude.{◌≡◌, ◌≤◌, length};
ghost use Rattle.abi.specs.Calls.{called, called_as, called_of, controller_of, image_number, inspected_of, inspection, lent_of, made};
ghost use Rattle.abi.specs.Layouts.{outcome_length, record_length};
ghost use Rattle.abi.specs.Readings.{Asked, code_of};
ghost use Rattle.abi.specs.Stepping.{stepped_as};
ghost use Rattle.abi.specs.Unread.{nothing_read};
ghost use Rattle.unit.specs.Standing.{table};

use board::Units;
use unit::{Controller, UnitNumber};

mod layouts;
mod places;
mod step;

pub const RECORD_LEN: usize = 276;

pub const OUTCOME_LEN: usize = 16;

// Why a call was refused. Its number is apart from the paper's, also where a caller keeps only the low byte.
#[derive(Clone, Copy, PartialEq, Eq)]
pub(crate) enum CallRefusal {
    Record0Short = 0x1F1,
    Record1Short = 0x1F2,
    OutcomeShort = 0x1F3,
    ControllerUnknown = 0x1F4,
    SteppedShort = 0x1F5,
    EntryShort = 0x1F6,
    NotInitialized = 0x1F7,
    SectorOutside = 0x1F8,
}

impl CallRefusal {
    // The number that crosses to C.
    pub(crate) fn code(self) -> u32
        ensures { result ≡ code_of self }
    {
        self as u32
    }
}

// The version of the layouts.
#[unsafe(no_mangle)]
pub extern "C" fn vsmd_layout_version() -> u32
    ensures { result ≡ 2 }
{
    2
}

// The bytes of a record.
#[unsafe(no_mangle)]
pub extern "C" fn vsmd_record_len() -> usize
    ensures { result ≡ record_length }
{
    RECORD_LEN
}

// The bytes of an outcome.
#[unsafe(no_mangle)]
pub extern "C" fn vsmd_outcome_len() -> usize
    ensures { result ≡ outcome_length }
{
    OUTCOME_LEN
}

// Two units of which nothing was read: each is read where it then stands, so that no table is copied.
pub(crate) fn unread_units() -> Units
    ensures { (table result.zero ≡ nothing_read) × (table result.one ≡ nothing_read) }
{
    Units {
        zero: layouts::unread(),
        one: layouts::unread(),
    }
}

// A run, once the buffers of the layouts are known to be long enough.
fn run(
    host: &mut [u8],
    image0: &mut [u8],
    image1: &mut [u8],
    events: &mut [u8],
    record0: &mut [u8],
    record1: &mut [u8],
    outcome: &mut [u8],
    c: Controller,
    first: u32,
    allowance: u32,
) -> u32
    requires { (276 ≤ length record0.old) × ((276 ≤ length record1.old) × (16 ≤ length outcome.old)) }
    ensures { let before = lent_of host.old image0.old image1.old events.old record0.old
        record1.old outcome.old in
        let after = lent_of host.new image0.new image1.new events.new record0.new
        record1.new outcome.new in
        called_of result after ≡ made c first allowance before }
{
    let mut units = unread_units();
    layouts::unit_in(record0, &mut units.zero);
    layouts::unit_in(record1, &mut units.one);
    let done = board::run(
        host, image0, image1, events, &mut units, c, first, allowance,
    );
    layouts::leave_record(record0, &units.zero);
    layouts::leave_record(record1, &units.one);
    let number = done.answer.number();
    layouts::put_outcome(outcome, number, done.failed, done.blocks, done.sectors);
    u32::from(number)
}

// The controller with a number.
fn controller_of(number: u32) -> Controller
    ensures { result ≡ controller_of number }
{
    if number == 0 {
        Controller::First
    } else {
        Controller::Second
    }
}

// What a run and a step ask before anything is done: how long the records are, and the third buffer, an outcome or what was stepped, for which each has a
// refusal of its own; then the controller's number. Answers the controller.
fn asked(
    record0: usize,
    record1: usize,
    third: usize,
    short: CallRefusal,
    controller: u32,
) -> Result<Controller, CallRefusal>
    ensures { Asked record0 record1 third short controller result }
{
    if record0 < RECORD_LEN {
        return Err(CallRefusal::Record0Short);
    }
    if record1 < RECORD_LEN {
        return Err(CallRefusal::Record1Short);
    }
    if third < OUTCOME_LEN {
        return Err(short);
    }
    if 1 < controller {
        return Err(CallRefusal::ControllerUnknown);
    }
    Ok(controller_of(controller))
}

// Runs the chain from the first block on, as the controller with a number: 0 the first, 1 the second. Answers the run's answer, 0 to 6, or one of the four
// codes where nothing was done.
#[unsafe(no_mangle)]
pub extern "C" fn vsmd_run_as(
    host: &mut [u8],
    image0: &mut [u8],
    image1: &mut [u8],
    events: &mut [u8],
    record0: &mut [u8],
    record1: &mut [u8],
    outcome: &mut [u8],
    first: u32,
    allowance: u32,
    controller: u32,
) -> u32
    ensures { let before = lent_of host.old image0.old image1.old events.old record0.old
        record1.old outcome.old in
        let after = lent_of host.new image0.new image1.new events.new record0.new
        record1.new outcome.new in
        called_of result after ≡ called_as controller first allowance before }
{
    match asked(
        record0.len(),
        record1.len(),
        outcome.len(),
        CallRefusal::OutcomeShort,
        controller,
    ) {
        Ok(c) => run(
            host, image0, image1, events, record0, record1, outcome, c, first, allowance,
        ),
        Err(refusal) => refusal.code(),
    }
}

// The same as the first controller. Its signature is older than the second: firmware that knows of one calls it with nine arguments.
#[unsafe(no_mangle)]
pub extern "C" fn vsmd_run(
    host: &mut [u8],
    image0: &mut [u8],
    image1: &mut [u8],
    events: &mut [u8],
    record0: &mut [u8],
    record1: &mut [u8],
    outcome: &mut [u8],
    first: u32,
    allowance: u32,
) -> u32
    ensures { let before = lent_of host.old image0.old image1.old events.old record0.old
        record1.old outcome.old in
        let after = lent_of host.new image0.new image1.new events.new record0.new
        record1.new outcome.new in
        called_of result after ≡ called first allowance before }
{
    vsmd_run_as(
        host, image0, image1, events, record0, record1, outcome, first, allowance, 0,
    )
}

// Runs the one block at an address, whose event entry is the one with an index, as the controller with a number, and follows no link: `stepped` says whether
// and where to go on. Answers 0; 3 where the block cannot be fetched; or one of five codes. Nothing is done unless it answers 0.
#[unsafe(no_mangle)]
pub extern "C" fn vsmd_step_as(
    host: &mut [u8],
    image0: &mut [u8],
    image1: &mut [u8],
    events: &mut [u8],
    record0: &mut [u8],
    record1: &mut [u8],
    stepped: &mut [u8],
    at: u32,
    index: u32,
    controller: u32,
) -> u32
    ensures { let before = lent_of host.old image0.old image1.old events.old record0.old
        record1.old stepped.old in
        let after = lent_of host.new image0.new image1.new events.new record0.new
        record1.new stepped.new in
        called_of result after ≡ stepped_as controller at index before }
{
    let c = match asked(
        record0.len(),
        record1.len(),
        stepped.len(),
        CallRefusal::SteppedShort,
        controller,
    ) {
        Ok(c) => c,
        Err(refusal) => return refusal.code(),
    };
    if (events.len() as u64) < 8 * u64::from(index) + 8 {
        return CallRefusal::EntryShort.code();
    }
    step::step(
        host, image0, image1, events, record0, record1, stepped, c, at, index,
    )
}

fn image_number(unit: UnitNumber) -> u32
    ensures { result ≡ image_number unit }
{
    match unit {
        UnitNumber::Zero => 0,
        UnitNumber::One => 1,
    }
}

// Which part of which image the sector at a place is: the image's number, the part's first byte and its length. Answers 0, or one of
// the first two codes where nothing was done.
#[unsafe(no_mangle)]
pub extern "C" fn vsmd_inspect(
    record0: &[u8],
    record1: &[u8],
    long0: usize,
    long1: usize,
    unit: u32,
    place: u64,
    image: &mut u32,
    at: &mut usize,
    bytes: &mut usize,
) -> u32
    ensures { inspected_of result image.new at.new bytes.new ≡
        inspection record0.now record1.now long0 long1 unit place
        image.old at.old bytes.old }
{
    if record0.len() < RECORD_LEN {
        return CallRefusal::Record0Short.code();
    }
    if record1.len() < RECORD_LEN {
        return CallRefusal::Record1Short.code();
    }
    let mut units = unread_units();
    layouts::unit_in(record0, &mut units.zero);
    layouts::unit_in(record1, &mut units.one);
    let part = board::part_of(&units, long0, long1, unit, place);
    *image = image_number(part.unit);
    *at = part.at;
    *bytes = part.bytes;
    0
}
