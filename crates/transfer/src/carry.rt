// The bytes of a transfer: each run that is consecutive on both sides is one copy.
ghost use Rattle.std.specs.Prelude.{cond, ◌≡◌, ◌+◌, ◌*◌, ◌^◌, ◌≤◌, ◌<◌, length};
ghost use Rattle.geometry.specs.Drive.{B};
ghost use Rattle.transfer.specs.Runs.{Carried, CarryFits, InImage, On, PiecesFit, Ready, Spans, advanced, behind, fill_store, lent, span_bytes, span_stores};
ghost use Rattle.transfer.specs.Stores.{after, up_to};
ghost use Rattle.wire.specs.Copy.{copied};
ghost use Rattle.unit.specs.Standing.{geometry};

use crate::reach::run_at;
use geometry::Sector;
use unit::{Span, Unit};
use wire::lesser;

// Where a transfer stands on the disk: the image's byte, how many bytes follow in a row, and the sectors done with them.
#[derive(Clone, Copy)]
pub(crate) struct Cursor {
    pub at: u64,
    pub left: u64,
    pub next: u16,
}

// One run, one way or the other.
fn copy_run(host: &mut [u8], h: usize, image: &mut [u8], d: usize, n: usize, to_host: bool)
    requires { (h + n ≤ length host.old) × (d + n ≤ length image.old) }
    ensures to { host.new ≡ cond to_host (copied image.old d host.old h n) host.old }
    ensures from { image.new ≡ cond to_host image.old (copied host.old h image.old d n) }
{
    if to_host {
        wire::copy(image, d, host, h, n);
    } else {
        wire::copy(host, h, image, d, n);
    }
}

// The cursor of the run that follows, of the span's sectors.
fn next_run(u: &Unit, span: Span, next: u16) -> Cursor
    requires { (next < span.count) × ((0 < B (geometry u.now)) × Spans u.now span) }
    ensures { Ready u.now span (next * B (geometry u.now)) result }
{
    let volume = span.volume;
    let run = run_at(u, volume, span.first + (next as u64), span.count - next);
    let Some(Sector { first, .. }) = u.geometry().sector(run.place) else {
        unreachable!();
    };
    Cursor {
        at: first,
        left: (run.sectors as u64) * (u.geometry().bytes_a_sector() as u64),
        next: next + run.sectors,
    }
}

// The cursor itself while it has bytes left, and then the next run's.
fn ready(u: &Unit, span: Span, c: Cursor) -> Cursor
    requires { Spans u.now span × (On u.now span (behind u.now c) c ×
        (behind u.now c < span.count * B (geometry u.now))) }
    ensures { Ready u.now span (behind u.now c) result }
{
    if 0 < c.left {
        return c;
    }
    next_run(u, span, c.next)
}

impl Cursor {
    // The cursor n bytes on.
    fn on(self, n: u64) -> Cursor
        requires { (n ≤ self.left) × (self.at + n < 2 ^ 64) }
        ensures { result ≡ advanced self n }
    {
        Cursor {
            at: self.at + n,
            left: self.left - n,
            next: self.next,
        }
    }
}

// The bytes of a piece, run after run.
fn carry_piece(
    host: &mut [u8],
    image: &mut [u8],
    u: &Unit,
    span: Span,
    to_host: bool,
    from: Cursor,
    at: usize,
    n: usize,
) -> Cursor
    requires { CarryFits u.now span from at n host.old image.old }
    ensures { let before = lent host.old image.old in
        let after = lent host.new image.new in
        Carried u.now span to_host (behind u.now from) at n before after result }
{
    let mut c = from;
    let mut done = 0;
    while done < n {
        let r = ready(u, span, c);
        let bytes = lesser(r.left, (n - done) as u64);
        copy_run(
            host,
            at + done,
            image,
            r.at as usize,
            bytes as usize,
            to_host,
        );
        c = r.on(bytes);
        done += bytes as usize;
    }
    c
}

// The bytes of a span's sectors.
pub(crate) fn span_bytes(u: &Unit, span: Span) -> u64
    ensures { result ≡ span_bytes u.now span }
{
    u64::from(span.count) * u64::from(u.geometry().bytes_a_sector())
}

// All bytes of a span, piece after piece.
pub(crate) fn carry(
    host: &mut [u8],
    image: &mut [u8],
    u: &Unit,
    span: Span,
    to_host: bool,
    lengths: &[u32],
    addresses: &[u32],
)
    requires { Spans u.now span × (InImage u.now span (length image.old) × PiecesFit (length host.old)
        (span_bytes u.now span) lengths.now addresses.now) }
    ensures { let before = lent host.old image.old in
        lent host.new image.new ≡ after (up_to (span_bytes u.now span)
        (span_stores u.now span to_host lengths.now addresses.now)) before }
{
    let all = span_bytes(u, span);
    let mut c = Cursor {
        at: 0,
        left: 0,
        next: 0,
    };
    let mut done = 0;
    for i in 0..lengths.len() {
        if done == all {
            break;
        }
        let n = lesser(u64::from(lengths[i]), all - done);
        let at = addresses[i] as usize;
        c = carry_piece(host, image, u, span, to_host, c, at, n as usize);
        done += n;
    }
}

// The bytes of one sector, stored in n sectors that follow one another from an index of the image on.
pub(crate) fn fill(host: &[u8], at: usize, image: &mut [u8], first: usize, bytes: usize, n: usize)
    requires { (at + bytes ≤ length host.now) × (0 < n → first + n * bytes ≤ length image.old) }
    ensures { let before = lent host.now image.old in
        lent host.now image.new ≡ after (up_to (n * bytes) (fill_store first at bytes)) before }
{
    for i in 0..n {
        wire::copy(host, at, image, first + i * bytes, bytes);
    }
}
