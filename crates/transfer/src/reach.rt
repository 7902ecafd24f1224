// How far a transfer comes: marks are scanned a run of sectors at a time, before a byte is moved.
ghost use Rattle.std.specs.Prelude.{◌≡◌, ◌+◌, ◌≤◌, ◌<◌, length};
ghost use Rattle.geometry.specs.Drive.{drive_sectors, need, volume_sectors};
ghost use Rattle.transfer.specs.Runs.{Advanced, Readable, RunAt, Spans, in_a_row, progress_from, reached, row_of};
ghost use Rattle.unit.specs.Standing.{geometry};

use crate::Moved;
use answers::Refusal;
use geometry::{Geometry, Sector, VolumeNumber};
use unit::{Span, Unit};

// A run of sectors that follow one another in the image.
#[derive(Clone, Copy)]
pub(crate) struct Run {
    pub place: u64,
    pub sectors: u16,
}

// The run from a number on, of the sectors asked for at most.
pub(crate) fn run_at(u: &Unit, v: VolumeNumber, number: u64, most: u16) -> Run
    requires { (number < volume_sectors (geometry u.now) v) × (0 < most) }
    ensures { RunAt u.now v number most result }
{
    let Some(spot) = u.land(v, number) else {
        unreachable!();
    };
    Run {
        place: spot.place,
        sectors: spot.rest.min(most),
    }
}

// How many of n marks from an index on let a transfer pass, before the first that stops it.
fn readable(image: &[u8], at: usize, n: usize, heeds: bool) -> usize
    requires { at + n ≤ length image.now }
    ensures { Readable heeds image.now at n result }
{
    if !heeds {
        return n;
    }
    for i in 0..n {
        if image[at + i] != 0 {
            return i;
        }
    }
    n
}

// What n sectors in a row come to, where so many of their marks let a transfer pass.
fn came(good: u16, n: u16) -> Moved
    ensures { result ≡ reached (row_of good n) }
{
    if good < n {
        return Moved {
            sectors: good,
            answer: Err(Refusal::Unreadable),
        };
    }
    Moved {
        sectors: n,
        answer: Ok(()),
    }
}

// How far a run comes, on an image that has all the marks of its drive.
pub(crate) fn reach(image: &[u8], g: Geometry, heeds: bool, place: u64, n: u16) -> Moved
    requires { (0 < n) × ((place + n ≤ drive_sectors g) × (need g ≤ length image.now)) }
    ensures { result ≡ reached (in_a_row image.now g heeds place n) }
{
    let Some(Sector { mark, .. }) = g.sector(place) else {
        unreachable!();
    };
    let good = readable(image, mark as usize, n as usize, heeds) as u16;
    came(good, n)
}

// How far the run from a number on comes.
fn advance(image: &[u8], u: &Unit, v: VolumeNumber, number: u64, most: u16, heeds: bool) -> Moved
    requires { (0 < most) × ((number + most ≤ volume_sectors (geometry u.now) v) × (need (geometry u.now) ≤ length image.now)) }
    ensures { Advanced image.now u.now v number most heeds result }
{
    let run = run_at(u, v, number, most);
    reach(image, u.geometry(), heeds, run.place, run.sectors)
}

// How far a span comes, run after run until one is stopped.
pub(crate) fn survey(image: &[u8], u: &Unit, span: Span, heeds: bool) -> Moved
    requires { Spans u.now span × (need (geometry u.now) ≤ length image.now) }
    ensures { result ≡ reached (progress_from image.now u.now span.volume heeds span.first
        span.count) }
{
    let volume = span.volume;
    let mut done: u16 = 0;
    while done < span.count {
        let m = advance(
            image,
            u,
            volume,
            span.first + u64::from(done),
            span.count - done,
            heeds,
        );
        let answer = m.answer;
        done += m.sectors;
        if let Err(refusal) = answer {
            return Moved {
                sectors: done,
                answer: Err(refusal),
            };
        }
    }
    Moved {
        sectors: done,
        answer: Ok(()),
    }
}
