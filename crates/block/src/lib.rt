// One block in three movements: it is judged, performed, and finished with its status and its event entry.
// It works on the record and the image of the unit that the block names, whichever that is, and on host memory and the event buffer.
// It follows no link and counts no blocks: which block comes next is the chain's.
#![tactic(auto)]

ghost use Rattle.std.specs.Prelude.{List, [], ◌∷◌, ◌≡◌, ℕ, ◌+◌, ◌-◌, ◌*◌, ◌≤◌, ◌<◌, length};
ghost use Rattle.iopb.specs.Identity.{identity_bytes};
ghost use Rattle.iopb.specs.Layout.{block_at};
ghost use Rattle.geometry.specs.Drive.{B};
ghost use Rattle.judge.specs.declared.Moving.{Moving};
ghost use Rattle.judge.specs.declared.Report.{Report};
ghost use Rattle.judge.specs.Fits.{JobGood, LeavingFits, MovingFits, PlanFits, ReportFits, SpanGood};
ghost use Rattle.request.specs.declared.Buffer.{Buffer};
ghost use Rattle.block.specs.Block.{effect_on, finish, held_after, holder_left, left_by, reported, transfer_of, travelled};
ghost use Rattle.block.specs.Steps.{Carries, Did, Knows, Made, Performs, Ready, BlockRoom, Stores, carried_out, drive_with, performed_of, table_by, three, told_of, transfer_with, turned_down};
ghost use Rattle.transfer.specs.declared.Moved.{Moved};
ghost use Rattle.transfer.specs.Progress.{last_tried};
ghost use Rattle.transfer.specs.Runs.{piece_byte};
ghost use Rattle.transfer.specs.Stores.{after};
ghost use Rattle.unit.specs.Landing.{spot_of};
ghost use Rattle.wire.specs.Promise.{Says};
ghost use Rattle.unit.specs.Standing.{CountsAsInitialized, UnitRecord, by_value, cylinder, geometry, unit_of, table};
ghost use Rattle.unit.specs.Made.{bare};
ghost use Rattle.wire.specs.Storing.{written};

use answers::Refusal;
use events::{put_event, travel};
use iopb::Block;
use judge::{Job, Leaving, Moving, Plan, Report, Standing};
use request::Buffer;
use transfer::Moved;
use unit::{Controller, Record, Span, Unit};

mod events;

// What a block tells: whether its unit counts as initialized now, its answer and its sectors, and what it said of the next.
#[derive(Clone, Copy)]
pub struct BlockTold {
    pub counts: bool,
    pub answer: Result<(), Refusal>,
    pub sectors: u16,
    pub linked: bool,
    pub link: u32,
}

// What a block came to: what it leaves of its unit's record, and what it tells.
#[derive(Clone, Copy)]
pub struct Done {
    pub unit: Record,
    pub told: BlockTold,
}

// What performing a block came to: what it leaves of the record, and what is left to be told of it.
#[derive(Clone, Copy)]
struct Performed {
    unit: Record,
    answer: Result<(), Refusal>,
    sectors: u16,
    travel: i32,
}

// Word 1 of the block at an address.
fn put_status(host: &mut [u8], at: usize, status: u8, error: u8)
    requires { at + 28 ≤ length host.old }
    ensures { host.new ≡ written host.old (at + 2) (status ∷ error ∷ []) }
{
    host[at + 2] = status;
    host[at + 3] = error;
}

// Words 2 to 7 of the block at an address.
fn put_identity(host: &mut [u8], at: usize)
    requires { at + 28 ≤ length host.old }
    ensures { host.new ≡ written host.old (at + 4) identity_bytes }
{
    let words = iopb::identity();
    wire::copy(&words, 0, host, at + 4, 12);
}

// The lower byte of word 3 and word 4 of the block at an address: the last of so many sectors, and how many they are.
fn put_formatted(host: &mut [u8], at: usize, sectors: u16)
    requires { (at + 28 ≤ length host.old) × ReportFits (Report.Formatted sectors) }
    ensures { host.new ≡ written host.old (at + 7) ((sectors - 1) ∷ 0x00 ∷ sectors ∷ []) }
{
    host[at + 7] = (sectors - 1) as u8;
    host[at + 8] = 0x00;
    host[at + 9] = sectors as u8;
}

// The words that a block reports.
fn put_report(host: &mut [u8], at: usize, report: Report)
    requires { (at + 28 ≤ length host.old) × ReportFits report }
    ensures { (image : List ℕ) → Stores (reported at report) host.old image host.new image }
{
    match report {
        Report::Nothing => {}
        Report::Identity => put_identity(host, at),
        Report::Formatted(sectors) => put_formatted(host, at, sectors),
    }
}

fn nothing_moved() -> Moved
    ensures { result ≡ record { sectors = 0; answer = Ok tt } }
{
    Moved {
        sectors: 0,
        answer: Ok(()),
    }
}

// Marks the block as running, and moves what is to be moved, to or from pieces that were found before: the block's own status word may
// lie under its list. The judge lets no request through that does not fit.
fn begin(
    host: &mut [u8],
    image: &mut [u8],
    u: &Unit,
    at: usize,
    moving: Moving,
    lengths: &[u32],
    addresses: &[u32],
) -> Moved
    requires { (at + 28 ≤ length host.old) × Ready u.now moving lengths.now addresses.now (length host.old)
        (length image.old) }
    ensures { Made (transfer_with u.now moving (piece_byte lengths.now addresses.now)) at
        host.old image.old host.new image.new result }
{
    put_status(host, at, 0x81, 0x00);
    match moving {
        Moving::Nothing => nothing_moved(),
        Moving::Sectors(job) => {
            let span = job.span;
            transfer::move_sectors(
                host,
                image,
                u,
                span,
                job.to_host,
                job.past_marks,
                lengths,
                addresses,
            )
            .unwrap()
        }
        Moving::Track(spot, buffer) => {
            transfer::format_track(host, image, u, spot, buffer).unwrap()
        }
    }
}

fn sector_bytes(u: &Unit) -> u32
    ensures { (result ≡ B (geometry u.now)) × (result < 65536) }
{
    u.geometry().bytes_a_sector() as u32
}

// The bytes of a job's sectors, all in one piece: an element's byte count would be too narrow for them.
fn job_bytes(u: &Unit, span: Span) -> u32
    ensures { result ≡ span.count * B (geometry u.now) }
{
    (span.count as u32) * sector_bytes(u)
}

// A job whose data lies in one piece.
fn in_one_piece(
    host: &mut [u8],
    image: &mut [u8],
    u: &Unit,
    at: usize,
    job: Job,
    address: u32,
) -> Moved
    requires { (at + 28 ≤ length host.old) × ((job.buffer ≡ Buffer.Piece address) × JobGood u.now (length image.old)
        host.old job) }
    ensures { Made (transfer_of host.old u.now (Moving.Sectors job)) at host.old
        image.old host.new image.new result }
{
    let span = job.span;
    let lengths = [job_bytes(u, span)];
    let addresses = [address];
    begin(
        host,
        image,
        u,
        at,
        Moving::Sectors(job),
        &lengths,
        &addresses,
    )
}

// A job whose data lies in the elements of a list. They are copied out before anything is stored.
fn through_list(
    host: &mut [u8],
    image: &mut [u8],
    u: &Unit,
    at: usize,
    job: Job,
    address: u32,
    elements: u8,
) -> Moved
    requires { (at + 28 ≤ length host.old) × ((job.buffer ≡ Buffer.List address elements) × JobGood u.now
        (length image.old) host.old job) }
    ensures { Made (transfer_of host.old u.now (Moving.Sectors job)) at host.old
        image.old host.new image.new result }
{
    let pieces = memory::copy_out(host, address, elements);
    let n = elements as usize;
    let lengths = pieces.lengths;
    let addresses = pieces.addresses;
    begin(
        host,
        image,
        u,
        at,
        Moving::Sectors(job),
        &lengths[..n],
        &addresses[..n],
    )
}

fn carry_job(host: &mut [u8], image: &mut [u8], u: &Unit, at: usize, job: Job) -> Moved
    requires { (at + 28 ≤ length host.old) × JobGood u.now (length image.old) host.old job }
    ensures { Made (transfer_of host.old u.now (Moving.Sectors job)) at host.old
        image.old host.new image.new result }
{
    let buffer = job.buffer;
    match buffer {
        Buffer::Piece(address) => in_one_piece(host, image, u, at, job, address),
        Buffer::List { at: list, elements } => through_list(
            host, image, u, at, job, list, elements,
        ),
    }
}

// What needs no pieces: nothing to be moved, or a track, which is told by an address.
fn without_pieces(host: &mut [u8], image: &mut [u8], u: &Unit, at: usize, moving: Moving) -> Moved
    requires { (at + 28 ≤ length host.old) × Ready u.now moving (0 ∷ []) (0 ∷ []) (length host.old)
        (length image.old) }
    ensures { Made (transfer_with u.now moving (piece_byte (0 ∷ []) (0 ∷ []))) at host.old
        image.old host.new image.new result }
{
    let none = [0u32];
    begin(host, image, u, at, moving, &none, &none)
}

// Finds the pieces of what is to be moved, marks the block, and moves it.
fn carry(host: &mut [u8], image: &mut [u8], u: &Unit, at: usize, moving: Moving) -> Moved
    requires { (at + 28 ≤ length host.old) × MovingFits u.now (length image.old) host.old moving }
    ensures { Made (transfer_of host.old u.now moving) at host.old image.old
        host.new image.new result }
{
    match moving {
        Moving::Nothing => without_pieces(host, image, u, at, moving),
        Moving::Sectors(job) => carry_job(host, image, u, at, job),
        Moving::Track(_, _) => without_pieces(host, image, u, at, moving),
    }
}

// The cylinder of the last sector tried of a span, of which so many sectors came.
fn last_tried(u: &Unit, span: Span, sectors: u16) -> u16
    requires { SpanGood u.now span }
    ensures { result ≡ (spot_of u.now span.volume (span.first + last_tried sectors span.count)).cylinder }
{
    let volume = span.volume;
    // a volume's sectors are counted in 64 bits, so the sum below is too
    let _all = u.geometry().volume_sectors(volume);
    let last = u64::from(sectors.min(span.count - 1));
    let Some(spot) = u.land(volume, span.first + last) else {
        unreachable!();
    };
    spot.cylinder
}

// The unit's record once so many sectors are moved.
fn left(u: &Unit, leaving: Leaving, sectors: u16) -> Record
    requires { LeavingFits u.now leaving }
    ensures { result ≡ by_value (left_by u.now sectors leaving) }
{
    match leaving {
        Leaving::AsItWas => u.value,
        Leaving::HeadsAt(cylinder) => u.value.moved_to(cylinder),
        Leaving::HeadsAtLastTried(span) => u.value.moved_to(last_tried(u, span, sectors)),
        Leaving::Fresh(g) => Record::fresh(g),
        Leaving::Mapped(_, _) => u.value.one_pair_more(),
    }
}

// The unit's table with it: a new record has none of its pairs, and a pair more stands at the end.
fn leave_table(u: &mut Unit, leaving: Leaving)
    ensures { (moved : ℕ) → table u.new ≡ table_by u.old moved leaving }
{
    match leaving {
        Leaving::AsItWas => {}
        Leaving::HeadsAt(_) => {}
        Leaving::HeadsAtLastTried(_) => {}
        Leaving::Fresh(_) => u.tracks = [0; 64],
        Leaving::Mapped(bad, spare) => spares::add(&mut u.tracks, u.value.pairs(), bad, spare),
    }
}

// Whether the unit counts as initialized then, told without a look at its table.
fn counts_then(counts: bool, leaving: Leaving) -> bool
    ensures { (u : UnitRecord) (moved : ℕ) → Says counts (CountsAsInitialized u) → LeavingFits u leaving → Says result
        (CountsAsInitialized (left_by u moved leaving)) }
{
    match leaving {
        Leaving::AsItWas => counts,
        Leaving::HeadsAt(_) => counts,
        Leaving::HeadsAtLastTried(_) => counts,
        Leaving::Fresh(_) => true,
        Leaving::Mapped(_, _) => counts,
    }
}

// How far the heads went: a new record's are where they are.
fn gone(u: Record, leaving: Leaving, new: Record) -> i32
    ensures { result ≡ travelled (cylinder (bare u)) leaving (cylinder (bare new)) }
{
    match leaving {
        Leaving::AsItWas => 0,
        Leaving::HeadsAt(_) => travel(u.cylinder(), new.cylinder()),
        Leaving::HeadsAtLastTried(_) => travel(u.cylinder(), new.cylinder()),
        Leaving::Fresh(_) => 0,
        Leaving::Mapped(_, _) => 0,
    }
}

// The stores of an accepted block in their order: the mark and what is moved, and then what is reported.
fn carry_and_report(host: &mut [u8], image: &mut [u8], u: &Unit, at: usize, plan: Plan) -> Moved
    requires { (at + 28 ≤ length host.old) × PlanFits u.now (length image.old) host.old plan }
    ensures { Carries host.old (drive_with u.now image.old) at plan host.new
        image.new result }
{
    let moving = plan.moving;
    let report = plan.report;
    let m = carry(host, image, u, at, moving);
    put_report(host, at, report);
    m
}

// What an accepted block does: it knows no events, and not how many blocks came before.
fn perform(host: &mut [u8], image: &mut [u8], u: &mut Unit, at: usize, plan: Plan) -> Performed
    requires { (at + 28 ≤ length host.old) × PlanFits u.old (length image.old) host.old plan }
    ensures { Performs (carried_out host.old (drive_with u.old image.old) at plan)
        host.old image.old host.new image.new (table u.new) result }
{
    let old = u.value;
    let leaving = plan.leaving;
    let m = carry_and_report(host, image, u, at, plan);
    let unit = left(u, leaving, m.sectors);
    leave_table(u, leaving);
    Performed {
        unit,
        answer: m.answer,
        sectors: m.sectors,
        travel: gone(old, leaving, unit),
    }
}

// Who holds the drive once a block has ended so: one that failed leaves that as it was.
fn held_after(u: Record, c: Controller, reserve: bool, answer: Result<(), Refusal>) -> Record
    ensures { result ≡ by_value (held_after c reserve answer (bare u)) }
{
    match answer {
        Ok(()) => u.held_by(c.reserves(reserve)),
        Err(_) => u,
    }
}

// The same by what was left: an accepted block that leaves the record as it was is a handshake, and leaves the holder too.
fn holder_left(
    u: Record,
    c: Controller,
    reserve: bool,
    leaving: Leaving,
    answer: Result<(), Refusal>,
) -> Record
    ensures { result ≡ by_value (holder_left c reserve leaving answer (bare u)) }
{
    match leaving {
        Leaving::AsItWas => u,
        Leaving::HeadsAt(_) => held_after(u, c, reserve, answer),
        Leaving::HeadsAtLastTried(_) => held_after(u, c, reserve, answer),
        Leaving::Fresh(_) => held_after(u, c, reserve, answer),
        Leaving::Mapped(_, _) => held_after(u, c, reserve, answer),
    }
}

// What was performed, with the holder that it leaves.
fn hold(p: Performed, c: Controller, reserve: bool, leaving: Leaving) -> Performed
    ensures { result ≡ record {
      unit = by_value (holder_left c reserve leaving p.answer (bare p.unit));
      answer = p.answer;
      sectors = p.sectors;
      travel = p.travel;
    } }
{
    let answer = p.answer;
    let left = p.unit;
    let unit = holder_left(left, c, reserve, leaving, answer);
    Performed {
        unit,
        answer,
        sectors: p.sectors,
        travel: p.travel,
    }
}

// A block that is refused before a transfer.
fn refuse(u: Record, r: Refusal) -> Performed
    ensures { result ≡ performed_of (turned_down (drive_with (bare u) []) r) }
{
    Performed {
        unit: u,
        answer: Err(r),
        sectors: 0,
        travel: 0,
    }
}

// The one end of every block: the final status and error, and the event entry.
fn finish(
    host: &mut [u8],
    events: &mut [u8],
    b: Block,
    at: usize,
    i: usize,
    p: Performed,
    counts: bool,
) -> Done
    requires { BlockRoom host.old events.old at i }
    ensures result { result ≡ record { unit = p.unit; told = told_of b counts p.answer p.sectors } }
    ensures stored { (image : List ℕ) → three host.new image events.new ≡ after (finish b at i p.answer p.travel)
        (three host.old image events.old) }
{
    let answer = p.answer;
    let unit = p.unit;
    let options = b.options;
    put_status(host, at, answers::status(answer), iopb::error_byte(answer));
    put_event(events, i, b, answer, p.travel);
    let told = BlockTold {
        counts,
        answer,
        sectors: p.sectors,
        linked: options.link,
        link: b.link,
    };
    Done { unit, told }
}

// Leaves what a block came to in its unit, whose table has been left, and hands on what it tells.
fn leave(unit: &mut Unit, done: Done) -> BlockTold
    ensures unit { unit.new ≡ unit_of done.unit (table unit.old) }
    ensures told { result ≡ done.told }
{
    unit.value = done.unit;
    done.told
}

// Whether a unit counts as initialized, asked where it is not known: a table of many pairs is long to look through.
fn settled(known: Option<bool>, u: &Unit) -> bool
    requires { Knows known u.now }
    ensures { Says result (CountsAsInitialized u.now) }
{
    match known {
        None => u.counts_as_initialized(),
        Some(counts) => counts,
    }
}

// The block at an address, on its unit and its image, run after i others.
pub fn run_block(
    host: &mut [u8],
    image: &mut [u8],
    events: &mut [u8],
    c: Controller,
    unit: &mut Unit,
    known: Option<bool>,
    at: usize,
    i: usize,
) -> BlockTold
    requires { BlockRoom host.old events.old at i × Knows known unit.old }
    ensures { let before = three host.old image.old events.old in
        let after = three host.new image.new events.new in
        let drive = drive_with unit.old image.old in
        Did (block_at host.old at) (effect_on c host.old drive at i) before after unit.new result }
{
    let b = Block::read(host, at);
    let counts = settled(known, unit);
    let standing = Standing {
        unit: &*unit,
        counts,
        image: image.len(),
        controller: c,
    };
    match judge::judge(iopb::task(b, host), standing, host) {
        Err(r) => finish(host, events, b, at, i, refuse(unit.value, r), counts).told,
        Ok(plan) => {
            let then = counts_then(counts, plan.leaving);
            let p = perform(host, image, unit, at, plan);
            let p = hold(p, c, b.options.reserve, plan.leaving);
            let done = finish(host, events, b, at, i, p, then);
            leave(unit, done)
        }
    }
}
