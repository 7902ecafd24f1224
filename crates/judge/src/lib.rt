// The checks before transfer on a task, its unit's standing and the host memory: a refusal, or what is to be done.
// Whatever is refused before a transfer is refused here, before anything is touched, by the first check that fails.
// It changes nothing, holds for every input, and knows no block; a list's elements are the 3200's.
#![tactic(auto)]

ghost use Rattle.std.specs.Prelude.{◌&&◌, List, ◌≡◌, ℕ, ◌<◌};
ghost use Rattle.geometry.specs.Drive.{B, S, need, volume, volume_sectors};
ghost use Rattle.geometry.specs.Limits.{Present};
ghost use Rattle.judge.specs.Given.{HasTrack, HasTracks, start_number, on};
ghost use Rattle.judge.specs.Plans.{carrying, job_of, only, plan};
ghost use Rattle.judge.specs.Verdict.{verdict};
ghost use Rattle.judge.specs.declared.Leaving.{Leaving};
ghost use Rattle.judge.specs.declared.Moving.{Moving};
ghost use Rattle.judge.specs.declared.Report.{Report};
ghost use Rattle.request.specs.declared.Task.{Task};
ghost use Rattle.wire.specs.Promise.{Says};
ghost use Rattle.unit.specs.declared.Controller.{Controller};
ghost use Rattle.unit.specs.Holding.{held_by_other};
ghost use Rattle.unit.specs.Landing.{track_of};
ghost use Rattle.unit.specs.Standing.{CountsAsInitialized, UnitRecord, geometry, holder};
ghost use Rattle.judge.specs.Steps.{Begins, by_its_own, from_address, from_buffer, from_data, from_image, from_sectors, from_table, asks_holder, asked};

use answers::Refusal;
use geometry::{Address, Geometry, VolumeNumber};
use request::{Buffer, Move, Pair, Start, Target, Task, Track};
use unit::{Controller, Span, Spot, Unit};
use wire::holds;

// What is judged of a unit beside the task: the unit, whether it counts as initialized, how long its image is, and which controller asks.
// Whoever runs several blocks has asked the second once: a table of many pairs is long to look through.
#[derive(Clone, Copy)]
pub struct Standing<'a> {
    pub unit: &'a Unit,
    pub counts: bool,
    pub image: usize,
    pub controller: Controller,
}

// Sectors to move: which, which way, and where the data lies.
#[derive(Clone, Copy)]
pub struct Job {
    pub to_host: bool,
    pub past_marks: bool,
    pub span: Span,
    pub buffer: Buffer,
}

// What is moved: nothing, sectors, or the bytes of one sector to every sector of a track.
#[derive(Clone, Copy)]
pub enum Moving {
    Nothing,
    Sectors(Job),
    Track(Spot, u32),
}

// What is reported in the block: nothing, what the board is, or that so many sectors of a track were formatted.
#[derive(Clone, Copy)]
pub enum Report {
    Nothing,
    Identity,
    Formatted(u16),
}

// What becomes of the unit's record: it stays as it was, its heads go to a cylinder or to that of the last sector tried, it is a new one, or it
// gets a pair more, a bad track and its spare.
#[derive(Clone, Copy)]
pub enum Leaving {
    AsItWas,
    HeadsAt(u16),
    HeadsAtLastTried(Span),
    Fresh(Geometry),
    Mapped(u32, u32),
}

// What an accepted block does.
#[derive(Clone, Copy)]
pub struct Plan {
    pub moving: Moving,
    pub report: Report,
    pub leaving: Leaving,
}

// The verdict on a task: what is to be done, or why it is refused.
pub fn judge(task: Task, standing: Standing<'_>, host: &[u8]) -> Result<Plan, Refusal>
    requires { Says standing.counts (CountsAsInitialized standing.unit.now) }
    ensures { result ≡ verdict (asked task standing.entry host.now) }
{
    if is_refused_as_held(task, standing) {
        return Err(Refusal::DriveHeld);
    }
    match task {
        Task::Unknown => Err(Refusal::CommandUnknown),
        Task::Move(m) => judge_move(m, standing, host),
        Task::Handshake => Ok(Plan {
            moving: Moving::Nothing,
            report: Report::Identity,
            leaving: Leaving::AsItWas,
        }),
        Task::Initialize(s) => judge_shape(s),
        Task::Restore => judge_restore(standing),
        Task::Seek(t) => judge_seek(t, standing),
        Task::Format(k) => judge_format(k, standing, host),
        Task::Map(k) => judge_map(k, standing),
    }
}

// Which tasks are asked who holds the drive: all that are listed but a handshake.
fn asks_holder(task: Task) -> bool
    ensures { result ≡ asks_holder task }
{
    !matches!(task, Task::Unknown | Task::Handshake)
}

// Whether the other controller holds the drive.
fn is_held(s: Standing<'_>) -> bool
    ensures { result ≡ held_by_other s.entry.controller (holder s.entry.unit.now) }
{
    s.controller.is_kept_out(s.unit.holder())
}

fn is_refused_as_held(task: Task, s: Standing<'_>) -> bool
    ensures { result ≡ asks_holder task && held_by_other s.entry.controller (holder s.entry.unit.now) }
{
    asks_holder(task) && is_held(s)
}

// A plan that moves nothing and reports nothing.
fn only(leaving: Leaving) -> Result<Plan, Refusal>
    ensures { result ≡ Ok (only leaving) }
{
    Ok(Plan {
        moving: Moving::Nothing,
        report: Report::Nothing,
        leaving,
    })
}

fn judge_shape(s: Option<Geometry>) -> Result<Plan, Refusal>
    ensures { (c : Controller) (u : UnitRecord) (image : ℕ) (host : List ℕ) → result ≡ by_its_own (on c u image (Task.Initialize s) host) }
{
    let g = s.ok_or(Refusal::UibMisplaced)?;
    if g.is_within() {
        only(Leaving::Fresh(g))
    } else {
        Err(Refusal::UibOutsideLimits)
    }
}

fn judge_restore(standing: Standing<'_>) -> Result<Plan, Refusal>
    ensures { (host : List ℕ) → Says standing.entry.counts (CountsAsInitialized standing.entry.unit.now) → result ≡ by_its_own
        (asked Task.Restore standing.entry host) }
{
    if standing.counts {
        restored()
    } else {
        Err(Refusal::NotInitialized)
    }
}

// The plan of 89: the heads go to cylinder 0.
fn restored() -> Result<Plan, Refusal>
    ensures { result ≡ Ok (only (Leaving.HeadsAt 0)) }
{
    only(Leaving::HeadsAt(0))
}

// What the checks ask of a unit's geometry.
fn has_volume(u: &Unit, v: VolumeNumber) -> bool
    ensures { Says result (Present (volume (geometry u.now) v)) }
{
    u.geometry().volume(v).is_present()
}

fn sectors_of(u: &Unit, v: VolumeNumber) -> u64
    ensures { result ≡ volume_sectors (geometry u.now) v }
{
    u.geometry().volume_sectors(v)
}

fn sector_bytes(u: &Unit) -> u64
    ensures { (result ≡ B (geometry u.now)) × (result < 65536) }
{
    u.geometry().bytes_a_sector() as u64
}

fn is_short(s: Standing<'_>) -> bool
    ensures { Says result (s.entry.image < need (geometry s.entry.unit.now)) }
{
    let u = s.unit;
    (s.image as u64) < u.geometry().need()
}

// The number of a request's first sector in its volume.
fn number(u: &Unit, v: VolumeNumber, start: Start) -> Option<u64>
    ensures { result ≡ start_number (geometry u.now) v start }
{
    match start {
        Start::Logical(n) => Some(u64::from(n)),
        Start::Physical {
            cylinder,
            head,
            sector,
        } => u.value.number(v, cylinder, head, sector),
    }
}

// Checks 11 and 14 of a seek.
fn judge_seek(t: Target, standing: Standing<'_>) -> Result<Plan, Refusal>
    requires { Says standing.counts (CountsAsInitialized standing.unit.now) }
    ensures { (host : List ℕ) → result ≡ by_its_own (asked (Task.Seek t) standing.entry host) }
{
    let u = standing.unit;
    let volume = t.volume;
    if !standing.counts {
        return Err(Refusal::NotInitialized);
    }
    if !has_volume(u, volume) {
        return Err(Refusal::VolumeAbsent);
    }
    judge_address(t, standing)
}

// Check 16 of a seek, which is for its one address.
fn judge_address(t: Target, standing: Standing<'_>) -> Result<Plan, Refusal>
    ensures { (host : List ℕ) → result ≡ from_address (asked (Task.Seek t) standing.entry host) t }
{
    let u = standing.unit;
    let volume = t.volume;
    let start = t.start;
    let n = number(u, volume, start).ok_or(Refusal::SectorOutside)?;
    let spot = u.land(volume, n).ok_or(Refusal::SectorOutside)?;
    only(Leaving::HeadsAt(spot.cylinder))
}

// Checks 11, 16 and 17 of a format.
fn judge_format(k: Track, standing: Standing<'_>, host: &[u8]) -> Result<Plan, Refusal>
    requires { Says standing.counts (CountsAsInitialized standing.unit.now) }
    ensures { result ≡ by_its_own (asked (Task.Format k) standing.entry host.now) }
{
    let u = standing.unit;
    if !standing.counts {
        return Err(Refusal::NotInitialized);
    }
    let spot = u
        .land_track(k.cylinder, k.head)
        .ok_or(Refusal::SectorOutside)?;
    if is_short(standing) {
        return Err(Refusal::ImageShort);
    }
    judge_data(k, spot, standing, host)
}

// Check 19 of a format, which is for the bytes of one sector.
fn judge_data(k: Track, spot: Spot, standing: Standing<'_>, host: &[u8]) -> Result<Plan, Refusal>
    requires { spot ≡ track_of standing.unit.now k.cylinder k.head }
    ensures { result ≡ from_data (asked (Task.Format k) standing.entry host.now) k }
{
    let u = standing.unit;
    if !holds(host, k.buffer, sector_bytes(u)) {
        return Err(Refusal::DataMisplaced);
    }
    formatted(k, spot, u)
}

// The plan of 8C: it reports the sectors of the track, which are as many as every track has.
fn formatted(k: Track, spot: Spot, u: &Unit) -> Result<Plan, Refusal>
    ensures { result ≡ Ok (plan (Moving.Track spot k.buffer) (Report.Formatted (S (geometry u.now)))
        (Leaving.HeadsAt spot.cylinder)) }
{
    Ok(Plan {
        moving: Moving::Track(spot, k.buffer),
        report: Report::Formatted(u.geometry().sectors_a_track()),
        leaving: Leaving::HeadsAt(spot.cylinder),
    })
}

// Checks 11 and 16 of a pair, the second for either track.
fn judge_map(k: Pair, standing: Standing<'_>) -> Result<Plan, Refusal>
    requires { Says standing.counts (CountsAsInitialized standing.unit.now) }
    ensures { (host : List ℕ) → result ≡ by_its_own (asked (Task.Map k) standing.entry host) }
{
    if !standing.counts {
        return Err(Refusal::NotInitialized);
    }
    if !has_tracks(standing.unit, k) {
        return Err(Refusal::SectorOutside);
    }
    judge_pair(k, standing)
}

fn has_track(u: &Unit, cylinder: u16, head: u8) -> bool
    ensures { Says result (HasTrack u.now cylinder head) }
{
    let named = Address {
        cylinder,
        head: head as u16,
        sector: 0,
    };
    u.geometry().place(named).is_some()
}

fn has_tracks(u: &Unit, k: Pair) -> bool
    ensures { Says result (HasTracks u.now k) }
{
    has_track(u, k.bad_cylinder, k.bad_head) && has_track(u, k.spare_cylinder, k.spare_head)
}

// Checks 22 and 23 of a pair.
fn judge_pair(k: Pair, standing: Standing<'_>) -> Result<Plan, Refusal>
    ensures { (host : List ℕ) → result ≡ from_table (asked (Task.Map k) standing.entry host) k }
{
    let u = standing.unit;
    let bad = spares::number(k.bad_cylinder, k.bad_head);
    let spare = spares::number(k.spare_cylinder, k.spare_head);
    if !spares::are_free(&u.tracks, u.pairs(), bad, spare) {
        return Err(Refusal::TracksTaken);
    }
    if 32 <= u.pairs() {
        return Err(Refusal::TableFull);
    }
    only(Leaving::Mapped(bad, spare))
}

// Checks 11, 14 and 15 of a transfer.
fn judge_move(m: Move, standing: Standing<'_>, host: &[u8]) -> Result<Plan, Refusal>
    requires { Says standing.counts (CountsAsInitialized standing.unit.now) }
    ensures { result ≡ by_its_own (asked (Task.Move m) standing.entry host.now) }
{
    let volume = m.target.volume;
    if !standing.counts {
        return Err(Refusal::NotInitialized);
    }
    if !has_volume(standing.unit, volume) {
        return Err(Refusal::VolumeAbsent);
    }
    if m.count == 0 {
        return Err(Refusal::CountZero);
    }
    judge_start(m, standing, host)
}

// Check 16 of a transfer, whether it begins anywhere.
fn judge_start(m: Move, standing: Standing<'_>, host: &[u8]) -> Result<Plan, Refusal>
    requires { 0 < m.count }
    ensures { result ≡ from_sectors (asked (Task.Move m) standing.entry host.now) m }
{
    let u = standing.unit;
    let target = m.target;
    let volume = target.volume;
    let start = target.start;
    let n = number(u, volume, start).ok_or(Refusal::SectorOutside)?;
    judge_span(m, n, standing, host)
}

// Check 16 of a transfer that begins at a number: the last sector is compared by what the volume has left.
fn judge_span(m: Move, n: u64, standing: Standing<'_>, host: &[u8]) -> Result<Plan, Refusal>
    requires { Begins (asked (Task.Move m) standing host.now) m n }
    ensures { result ≡ from_sectors (asked (Task.Move m) standing.entry host.now) m }
{
    let u = standing.unit;
    let target = m.target;
    let volume = target.volume;
    let sectors = sectors_of(u, volume);
    if sectors <= n {
        return Err(Refusal::SectorOutside);
    }
    if sectors - n < (m.count as u64) {
        return Err(Refusal::SectorOutside);
    }
    judge_image(m, n, standing, host)
}

// Check 17 of a transfer.
fn judge_image(m: Move, n: u64, s: Standing<'_>, host: &[u8]) -> Result<Plan, Refusal>
    requires { Begins (asked (Task.Move m) s host.now) m n }
    ensures { result ≡ from_image (asked (Task.Move m) s.entry host.now) m }
{
    if is_short(s) {
        Err(Refusal::ImageShort)
    } else {
        judge_buffer(m, n, s, host)
    }
}

// Checks 18 and 19 of a transfer.
fn judge_buffer(m: Move, n: u64, standing: Standing<'_>, host: &[u8]) -> Result<Plan, Refusal>
    requires { Begins (asked (Task.Move m) standing host.now) m n }
    ensures { result ≡ from_buffer (asked (Task.Move m) standing.entry host.now) m }
{
    let u = standing.unit;
    let bytes = (m.count as u64) * sector_bytes(u);
    let buffer = m.buffer;
    match buffer {
        Buffer::Piece(at) => {
            if !holds(host, at, bytes) {
                return Err(Refusal::DataMisplaced);
            }
            accepted(m, n)
        }
        Buffer::List { at, elements } => {
            memory::list(host, at, elements, bytes)?;
            accepted(m, n)
        }
    }
}

fn accepted(m: Move, n: u64) -> Result<Plan, Refusal>
    ensures { result ≡ Ok (carrying (job_of m n)) }
{
    let target = m.target;
    let volume = target.volume;
    let buffer = m.buffer;
    let span = Span {
        volume,
        first: n,
        count: m.count,
    };
    let job = Job {
        to_host: m.to_host,
        past_marks: m.past_marks,
        span,
        buffer,
    };
    Ok(Plan {
        moving: Moving::Sectors(job),
        report: Report::Nothing,
        leaving: Leaving::HeadsAtLastTried(span),
    })
}
