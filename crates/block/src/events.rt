// The event entry of a block: its final status and error, the interrupt that the host asked for, and how far the heads went.
ghost use Rattle.std.specs.Prelude.{◌≡◌, ◌+◌, ◌*◌, ◌≤◌, length};
ghost use Rattle.block.specs.Events.{entry, level_of, travel_to, vector_of};
ghost use Rattle.wire.specs.Storing.{written};

use answers::Refusal;
use iopb::Block;

// How far the heads went: the new cylinder minus the old one. Any two numbers of 16 bits have a difference in 32.
pub(crate) fn travel(old: u16, new: u16) -> i32
    ensures { result ≡ travel_to old new }
{
    i32::from(new) - i32::from(old)
}

// The interrupt level, where the host asked for an interrupt.
fn level(b: Block) -> u8
    ensures { result ≡ level_of b }
{
    let options = b.options;
    if options.interrupt { b.level } else { 0 }
}

// The interrupt vector, where the host asked for an interrupt: one for a block that ended and one for a block that failed.
fn vector(b: Block, answer: Result<(), Refusal>) -> u8
    ensures { result ≡ vector_of b answer }
{
    let options = b.options;
    if !options.interrupt {
        return 0;
    }
    match answer {
        Ok(()) => b.normal_vector,
        Err(_) => b.error_vector,
    }
}

// Stores the entry of the block with the index i, counted from 0. The rest of the buffer stays.
pub(crate) fn put_event(
    events: &mut [u8],
    i: usize,
    b: Block,
    answer: Result<(), Refusal>,
    travel: i32,
)
    requires { 8 * i + 8 ≤ length events.old }
    ensures { events.new ≡ written events.old (8 * i) (entry b answer travel) }
{
    let at = 8 * i;
    let status = answers::status(answer);
    let error = iopb::error_byte(answer);
    events[at] = status;
    events[at + 1] = error;
    events[at + 2] = level(b);
    events[at + 3] = vector(b, answer);
    wire::put32(events, at + 4, travel.cast_unsigned());
}
