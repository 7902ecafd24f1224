// Moves sectors between a unit's image and pieces of host memory: first how far a transfer comes, then its bytes, run by run.
// It knows units and pieces, and no block, no list element and no layout: any product's request is carried out here.
// It changes no mark and no byte after the marks, and nothing at all where a request does not fit.
#![tactic(auto)]

ghost use Rattle.std.specs.Prelude.{◌&&◌, not, ◌≡◌, ◌+◌, ◌-◌, ◌^◌, ◌≤◌, ◌<◌, length};
ghost use Rattle.geometry.specs.Drive.{S, drive_sectors, need, volume_sectors};
ghost use Rattle.transfer.specs.Runs.{PiecesFit, lent};
ghost use Rattle.transfer.specs.Stores.{after};
ghost use Rattle.transfer.specs.Whole.{SectorsFit, TrackFits, sectors_result, track_result};
ghost use Rattle.wire.specs.Promise.{Says};
ghost use Rattle.unit.specs.Standing.{geometry};

use answers::Refusal;
use geometry::{Geometry, Sector};
use unit::{Span, Spot, Unit};

mod carry;
mod reach;

use carry::{carry, fill, span_bytes};
use reach::{reach, survey};

// What a transfer came to: the sectors moved and the answer. Where the heads stand then is not told here.
#[derive(Clone, Copy)]
pub struct Moved {
    pub sectors: u16,
    pub answer: Result<(), Refusal>,
}

// Whether pieces lie in a host memory of so many bytes, and have so many bytes together. What is left to be had is counted
// down, so that no sum can wrap.
fn pieces_fit(lengths: &[u32], addresses: &[u32], long: u64, bytes: u64) -> bool
    requires { length addresses.now ≡ length lengths.now }
    ensures { Says result (PiecesFit long bytes lengths.now addresses.now) }
{
    let mut left = bytes;
    for i in 0..lengths.len() {
        let n = u64::from(lengths[i]);
        if long < u64::from(addresses[i]) + n {
            return false;
        }
        left = left.saturating_sub(n);
    }
    left == 0
}

// Whether a span has sectors, and its volume has them.
fn span_fits(u: &Unit, span: Span) -> bool
    ensures says { Says result ((0 < span.count) × (span.first + span.count ≤ volume_sectors (geometry u.now) span.volume)) }
    ensures small { volume_sectors (geometry u.now) span.volume < 2 ^ 64 }
{
    let sectors = u.geometry().volume_sectors(span.volume);
    let count = u64::from(span.count);
    count != 0 && count <= sectors && span.first <= sectors - count
}

// Whether an image of so many bytes is long enough for the drive: every sector, and every mark, is there.
fn holds_drive(u: &Unit, image: u64) -> bool
    ensures { Says result (need (geometry u.now) ≤ image) }
{
    u.geometry().need() <= image
}

fn sectors_fit(
    u: &Unit,
    span: Span,
    lengths: &[u32],
    addresses: &[u32],
    long: u64,
    image: u64,
) -> bool
    ensures says { Says result (SectorsFit (geometry u.now) span lengths.now addresses.now long image) }
    ensures small { volume_sectors (geometry u.now) span.volume < 2 ^ 64 }
{
    span_fits(u, span)
        && holds_drive(u, image)
        && addresses.len() == lengths.len()
        && pieces_fit(lengths, addresses, long, span_bytes(u, span))
}

fn heeds(to_host: bool, past_marks: bool) -> bool
    ensures { result ≡ (to_host && not past_marks) }
{
    to_host && !past_marks
}

// Moves the sectors of a span to pieces of host memory, or from them. To host memory it stops at a mark that is not 0, unless it
// goes past the marks. A request that does not fit is left alone: which check refuses such a one is not said here.
pub fn move_sectors(
    host: &mut [u8],
    image: &mut [u8],
    u: &Unit,
    span: Span,
    to_host: bool,
    past_marks: bool,
    lengths: &[u32],
    addresses: &[u32],
) -> Option<Moved>
    ensures result { result ≡ (sectors_result (length host.old) image.old u.now span to_host past_marks
        lengths.now addresses.now).attempt }
    ensures stores { let before = lent host.old image.old in
        lent host.new image.new ≡ after (sectors_result (length host.old) image.old
        u.now span to_host past_marks lengths.now addresses.now).stores before }
{
    if !sectors_fit(
        u,
        span,
        lengths,
        addresses,
        host.len() as u64,
        image.len() as u64,
    ) {
        return None;
    }
    let moved = survey(image, u, span, heeds(to_host, past_marks));
    let reached = Span {
        count: moved.sectors,
        ..span
    };
    carry(host, image, u, reached, to_host, lengths, addresses);
    Some(moved)
}

// Whether a track has sectors, and the drive has them all from a place on.
fn on_drive(g: Geometry, place: u64) -> bool
    ensures { Says result ((0 < S g) × (place + S g ≤ drive_sectors g)) }
{
    let sectors = u64::from(g.sectors_a_track());
    let all = g.drive_sectors();
    sectors != 0 && sectors <= all && place <= all - sectors
}

fn track_fits(u: &Unit, spot: Spot, at: u32, long: u64, image: u64) -> bool
    ensures { Says result (TrackFits (geometry u.now) spot at long image) }
{
    let g = u.geometry();
    on_drive(g, spot.place)
        && holds_drive(u, image)
        && u64::from(at) + u64::from(g.bytes_a_sector()) <= long
}

// Writes the bytes of one sector, from an address of host memory on, to every sector of a track. A request that does not fit is left alone.
pub fn format_track(host: &[u8], image: &mut [u8], u: &Unit, spot: Spot, at: u32) -> Option<Moved>
    ensures result { result ≡ (track_result (length host.now) image.old u.now spot at).attempt }
    ensures stores { let before = lent host.now image.old in
        lent host.now image.new ≡ after (track_result (length host.now) image.old u.now
        spot at).stores before }
{
    if !track_fits(u, spot, at, host.len() as u64, image.len() as u64) {
        return None;
    }
    let g = u.geometry();
    let Some(Sector { first, .. }) = g.sector(spot.place) else {
        unreachable!();
    };
    let moved = reach(image, g, false, spot.place, g.sectors_a_track());
    fill(
        host,
        at as usize,
        image,
        first as usize,
        g.bytes_a_sector() as usize,
        moved.sectors as usize,
    );
    Some(moved)
}
