// The session program: fields in on standard input, lines out on standard output. It only reads, calls transcript and writes.
// What a session says is transcript's; `play` promises that a writer gets it, of the bytes that a reader has, where both are known.
// What bytes a call of the system reads or writes no contract can say.
// A read that fails counts as the input's end, and a write that fails as the session's.
#![tactic(auto)]

ghost use Rattle.std.specs.Prelude.{ℕ, ◌+◌, ◌≤◌, IfOk, OnOk, length, take};
ghost use Rattle.std.specs.Io.KnownBytes.{Consumes};
ghost use Rattle.session.specs.Told.{IsPlayed, Stays, TakesField, TakesUpTo, in_the_end};
ghost use Rattle.transcript.specs.Steps.{lent_of};

use board::Units;
use std::io;
use std::io::{Read, Write};
use transcript::{MOST_BYTES, Next, State, TEXT_ROOM};

// The most that a field takes: its opening, and as much as its length may be.
const MOST_FIELD: usize = 3 + MOST_BYTES;

// How many bytes were read, and how the reading ended: what was read before a read that failed is heard all the same.
#[derive(Drop)]
struct Got {
    bytes: usize,
    end: io::Result<()>,
}

// Reads to the buffer's start until the buffer is full, the input ends or a read fails.
fn read_full<R: Read>(input: &mut R, buffer: &mut [u8]) -> Got
    ensures within { result.bytes ≤ length buffer.new }
    ensures bytes { Consumes (R.remaining input.old) (R.remaining input.new) (take result.bytes buffer.new) }
    ensures full { OnOk result.end
        (TakesUpTo (length buffer.new) (R.remaining input.old) (R.remaining input.new) (take result.bytes buffer.new)) }
{
    let mut done = 0;
    while done < buffer.len() {
        match input.read(&mut buffer[done..]) {
            Ok(0) => break,
            Ok(more) => done += more,
            Err(error) => {
                return Got {
                    bytes: done,
                    end: Err(error),
                };
            }
        }
    }
    Got {
        bytes: done,
        end: Ok(()),
    }
}

// Reads what there is of the next field: its opening, and on up to what the opening wants. The buffer has room for any field.
#[tactic(auto, using(crate::proofs::Fields::wanted_least, crate::proofs::Fields::wanted_most))]
fn read_field<R: Read>(input: &mut R, field: &mut [u8; MOST_FIELD]) -> Got
    ensures within { result.bytes ≤ length field.new }
    ensures bytes { Consumes (R.remaining input.old) (R.remaining input.new) (take result.bytes field.new) }
    ensures field { OnOk result.end (TakesField (R.remaining input.old) (R.remaining input.new) (take result.bytes field.new)) }
{
    let opening = read_full(input, &mut field[..3]);
    // short too where a read failed
    if opening.bytes < 3 {
        return opening;
    }
    let wanted = transcript::wanted(&field[..3]);
    let rest = read_full(input, &mut field[3..wanted]);
    Got {
        bytes: 3 + rest.bytes,
        end: rest.end,
    }
}

// One field of the session: read, heard, told. It gives what comes after it.
fn hear<R: Read, W: Write>(
    input: &mut R,
    output: &mut W,
    field: &mut [u8; MOST_FIELD],
    host: &mut [u8],
    image0: &mut [u8],
    image1: &mut [u8],
    text: &mut [u8],
    units: &mut Units,
    s: State,
) -> io::Result<Next>
    ensures { let before = lent_of host.old image0.old image1.old text.old units.old in
        let after = lent_of host.new image0.new image1.new text.new units.new in
        IfOk result (λ next. (k : ℕ) →
        Stays (in_the_end (k + 1) (Next.On s) before (R.remaining input.old) (W.contents output.old))
        (in_the_end k next after (R.remaining input.new) (W.contents output.new))) }
{
    let got = read_field(input, field);
    let said = transcript::step(&field[..got.bytes], host, image0, image1, text, units, s);
    // what was said lies within the text's buffer, so that min changes nothing
    output.write_all(&text[..said.text.min(text.len())])?;
    got.end?;
    Ok(said.next)
}

// The whole session, from a reader to a writer.
fn play<R: Read, W: Write>(input: &mut R, output: &mut W) -> io::Result<()>
    ensures { OnOk result (IsPlayed (R.remaining input.old) (W.contents output.old) (W.contents output.new)) }
{
    let mut field = [0; MOST_FIELD];
    let mut host = [0; MOST_BYTES];
    let mut image0 = [0; MOST_BYTES];
    let mut image1 = [0; MOST_BYTES];
    let mut text = [0; TEXT_ROOM];
    let mut units = transcript::units();
    let mut s = transcript::start();
    // a proved loop has to end, and an input need not: no input uses up so many turns
    for turn in 0..u64::MAX {
        let next = hear(
            input,
            output,
            &mut field,
            &mut host,
            &mut image0,
            &mut image1,
            &mut text,
            &mut units,
            s,
        )?;
        match next {
            Next::On(later) => s = later,
            Next::Over | Next::NoRoom => return Ok(()),
        }
    }
    Ok(())
}

fn main(rt: HostRuntime) {
    let _ = play(&mut rt.stdin(), &mut rt.stdout());
}
