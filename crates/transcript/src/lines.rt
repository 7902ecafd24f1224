// The lines that a session prints. Each function puts its bytes at a place of the text and answers the place after them.
ghost use Rattle.std.specs.Prelude.{◌≡◌, ◌+◌, ◌*◌, ◌≤◌, ◌<◌, length, ◌++◌};
ghost use Rattle.transcript.specs.Steps.{Appended};
ghost use Rattle.transcript.specs.Text.{block_line, block_lines, decimal, digit, hex, refusal_line, run_line, signed};

fn put(text: &mut [u8], at: usize, bytes: &[u8]) -> usize
    requires { at + length bytes.now ≤ length text.old }
    ensures { Appended text.old at bytes.now text.new result }
{
    let next = at + bytes.len();
    text[at..next].copy_from_slice(bytes);
    next
}

fn digit(d: u8) -> u8
    requires { d < 16 }
    ensures { result ≡ digit d }
{
    if d < 10 { 48 + d } else { 87 + d }
}

// Two lower-case hex digits after their word.
fn put_hex(text: &mut [u8], at: usize, word: &[u8], byte: u8) -> usize
    requires { at + length word.now + 2 ≤ length text.old }
    ensures { Appended text.old at (word.now ++ hex byte) text.new result }
{
    let next = put(text, at, word);
    put(text, next, &[digit(byte / 16), digit(byte % 16)])
}

fn put_decimal(text: &mut [u8], at: usize, n: u64) -> usize
    requires { at + length (decimal n) ≤ length text.old }
    ensures { Appended text.old at (decimal n) text.new result }
{
    let last = digit((n % 10) as u8);
    if n < 10 {
        text[at] = last;
        return at + 1;
    }
    let next = put_decimal(text, at, n / 10);
    text[next] = last;
    next + 1
}

// A decimal number after its word.
fn put_number(text: &mut [u8], at: usize, word: &[u8], n: u64) -> usize
    requires { at + length word.now + 20 ≤ length text.old }
    ensures { Appended text.old at (word.now ++ decimal n) text.new result }
{
    let next = put(text, at, word);
    put_decimal(text, next, n)
}

// A number of 32 bits in two's complement, after its word.
fn put_signed(text: &mut [u8], at: usize, word: &[u8], n: u32) -> usize
    requires { at + length word.now + 21 ≤ length text.old }
    ensures { Appended text.old at (word.now ++ signed n) text.new result }
{
    if n < 0x8000_0000 {
        return put_number(text, at, word, n as u64);
    }
    let next = put(text, at, word);
    put_number(text, next, b"-", 0x1_0000_0000 - (n as u64))
}

pub(crate) fn put_run(text: &mut [u8], answer: u8, blocks: u32, sectors: u32) -> usize
    requires { 96 ≤ length text.old }
    ensures { Appended text.old 0 (run_line answer blocks sectors) text.new result }
{
    let next = put_number(text, 0, b"run answer ", answer as u64);
    let next = put_number(text, next, b" blocks ", blocks as u64);
    let next = put_number(text, next, b" sectors ", sectors as u64);
    put(text, next, b"\n")
}

// The line of the k-th block, k from 1.
fn put_block(text: &mut [u8], at: usize, events: &[u8], k: u32) -> usize
    requires { (at + 96 ≤ length text.old) × ((1 ≤ k) × (8 * k ≤ length events.now)) }
    ensures { Appended text.old at (block_line events.now k) text.new result }
{
    let entry = 8 * ((k - 1) as usize);
    let next = put_number(text, at, b"block ", k as u64);
    let next = put_hex(text, next, b" status ", events[entry]);
    let next = put_hex(text, next, b" error ", events[entry + 1]);
    let next = put_hex(text, next, b" level ", events[entry + 2]);
    let next = put_hex(text, next, b" vector ", events[entry + 3]);
    let next = put_signed(text, next, b" travel ", wire::be32(events, entry + 4));
    put(text, next, b"\n")
}

pub(crate) fn put_blocks(text: &mut [u8], at: usize, events: &[u8], blocks: u32) -> usize
    requires { (at + 96 * blocks ≤ length text.old) × (8 * blocks ≤ length events.now) }
    ensures { Appended text.old at (block_lines events.now blocks) text.new result }
{
    let mut next = at;
    for k in 1..=blocks {
        next = put_block(text, next, events, k);
    }
    next
}

pub(crate) fn put_refusal(text: &mut [u8], at: u64) -> usize
    requires { 96 ≤ length text.old }
    ensures { Appended text.old 0 (refusal_line at) text.new result }
{
    let next = put_number(text, 0, b"session refused at byte ", at);
    put(text, next, b"\n")
}
