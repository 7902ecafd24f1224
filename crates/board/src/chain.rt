// A chain: each block is fetched and executed, and one that ends with a link leads to fetching the next.
ghost use Rattle.std.specs.Prelude.{◌≡◌, ◌+◌, ◌*◌, ◌≤◌, length};
ghost use Rattle.board.specs.Ends.{ended_of};
ghost use Rattle.board.specs.Chain.{counted, executed, fetched, nothing, ran};
ghost use Rattle.board.specs.Steps.{EndedIn, KnowsBoth, RanOne, Spare, SteppedOn, WentLeg, WentOn};
ghost use Rattle.board.specs.Steps.{leg_of, next_at, nothing_learnt, stepped_of};
ghost use Rattle.block.specs.Steps.{BlockRoom};
ghost use Rattle.wire.specs.Memory.{InMemory};
ghost use Rattle.wire.specs.Promise.{Says};
ghost use Rattle.answers.specs.declared.RunAnswer.{RunAnswer};
ghost use Rattle.answers.specs.Numbers.{refusal_number};
ghost use Rattle.board.specs.Run.{CameTo, world_of};

use crate::Units;
use answers::{Refusal, RunAnswer};
use block::{BlockTold, run_block};
use unit::{Controller, UnitNumber};

// What a block alone came to: what it told, and what it said of the next.
#[derive(Clone, Copy)]
pub struct Stepped {
    pub answer: Result<(), Refusal>,
    pub sectors: u16,
    pub linked: bool,
    pub link: u32,
}

// Of each unit, whether it counts as initialized, where the chain knows. It asks once, where a block names the unit, and every block tells anew.
#[derive(Clone, Copy)]
pub(crate) struct Learnt {
    pub zero: Option<bool>,
    pub one: Option<bool>,
}

// A block of a chain: what the chain goes by after it, and what it has learnt.
#[derive(Clone, Copy)]
pub(crate) struct Went {
    pub told: BlockTold,
    pub learnt: Learnt,
}

// The blocks run and the sectors moved so far.
#[derive(Clone, Copy)]
pub struct Count {
    pub blocks: u32,
    pub sectors: u32,
}

// What a run came to: how its chain ended. The units are left where they are lent. `failed` is the failed block's number with the answer BlockFailed, and 0
// with any other.
#[derive(Clone, Copy)]
pub struct Outcome {
    pub answer: RunAnswer,
    pub failed: u8,
    pub blocks: u32,
    pub sectors: u32,
}

// A leg of a chain: how it ended, and, where its allowance is spent, from which address and with what knowledge the chain goes on.
#[derive(Clone, Copy)]
pub(crate) struct Leg {
    pub end: Outcome,
    pub at: u32,
    pub learnt: Learnt,
}

// How many blocks fetch and execute run before the stack is given back.
const LEG: u32 = 8;

// One block of a chain, on the drive of its request's unit.
pub(crate) fn step(
    host: &mut [u8],
    image0: &mut [u8],
    image1: &mut [u8],
    events: &mut [u8],
    units: &mut Units,
    c: Controller,
    learnt: Learnt,
    at: usize,
    i: usize,
) -> Went
    requires { BlockRoom host.old events.old at i × KnowsBoth learnt units.old.zero units.old.one }
    ensures { let before = world_of c host.old image0.old image1.old events.old units.old in
        let after = world_of c host.new image0.new image1.new events.new units.new in
        SteppedOn before at i after result }
{
    match iopb::unit_at(host, at) {
        UnitNumber::Zero => {
            let told = run_block(host, image0, events, c, &mut units.zero, learnt.zero, at, i);
            let zero = Some(told.counts);
            Went {
                told,
                learnt: Learnt { zero, ..learnt },
            }
        }
        UnitNumber::One => {
            let told = run_block(host, image1, events, c, &mut units.one, learnt.one, at, i);
            let one = Some(told.counts);
            Went {
                told,
                learnt: Learnt { one, ..learnt },
            }
        }
    }
}

// What a chain knows before its first block.
fn unasked() -> Learnt
    ensures { result ≡ nothing_learnt }
{
    Learnt {
        zero: None,
        one: None,
    }
}

// Whether a block can be fetched from there.
fn holds_block(host: &[u8], at: u32) -> bool
    ensures { Says result (InMemory host.now at 28) }
{
    wire::holds(host, at, 28)
}

fn ended(answer: RunAnswer, failed: u8, count: Count) -> Outcome
    ensures { result ≡ ended_of answer failed count }
{
    Outcome {
        answer,
        failed,
        blocks: count.blocks,
        sectors: count.sectors,
    }
}

// A leg that stops there: how it ended, and the address and the knowledge that a next one would begin with.
fn stopped(answer: RunAnswer, failed: u8, count: Count, at: u32, learnt: Learnt) -> Leg
    ensures { result ≡ leg_of (ended_of answer failed count) at learnt }
{
    let end = ended(answer, failed, count);
    Leg { end, at, learnt }
}

// A failed block ends the chain, with its number.
fn failed(r: Refusal, count: Count, at: u32, learnt: Learnt) -> Leg
    ensures { result ≡ leg_of (ended_of RunAnswer.BlockFailed (refusal_number r) count) at learnt }
{
    stopped(RunAnswer::BlockFailed, r.number(), count, at, learnt)
}

// Each fetch spends one of the allowance. What is asked first, before the block's address is looked at, is whether any is left.
#[cycle(execute_fetch)]
fn fetch(
    host: &mut [u8],
    image0: &mut [u8],
    image1: &mut [u8],
    events: &mut [u8],
    units: &mut Units,
    c: Controller,
    learnt: Learnt,
    at: u32,
    left: u32,
    count: Count,
) -> Leg
    requires { Spare events.old left count × KnowsBoth learnt units.old.zero units.old.one }
    ensures { let before = world_of c host.old image0.old image1.old events.old units.old in
        let after = world_of c host.new image0.new image1.new events.new units.new in
        WentLeg left count at before after result }
{
    if left == 0 {
        return stopped(RunAnswer::AllowanceSpent, 0, count, at, learnt);
    }
    if !holds_block(host, at) {
        return stopped(RunAnswer::LinkBad, 0, count, at, learnt);
    }
    execute(
        host,
        image0,
        image1,
        events,
        units,
        c,
        learnt,
        at,
        left - 1,
        count,
    )
}

// A block that ended with a link leads to the next fetch. The link of a failed block is not followed.
#[cycle(execute_fetch)]
fn execute(
    host: &mut [u8],
    image0: &mut [u8],
    image1: &mut [u8],
    events: &mut [u8],
    units: &mut Units,
    c: Controller,
    learnt: Learnt,
    at: u32,
    left: u32,
    count: Count,
) -> Leg
    requires { InMemory host.old at 28 × Spare events.old (left + 1) count × KnowsBoth learnt units.old.zero units.old.one }
    ensures { let before = world_of c host.old image0.old image1.old events.old units.old in
        let after = world_of c host.new image0.new image1.new events.new units.new in
        WentOn (executed (fetched left) count at before) (next_at (left + 1) count at before) after result }
{
    let step = step(
        host,
        image0,
        image1,
        events,
        units,
        c,
        learnt,
        at as usize,
        count.blocks as usize,
    );
    let s = step.told;
    let answer = s.answer;
    let count = counted(count, s.sectors);
    match answer {
        Err(r) => failed(r, count, s.link, step.learnt),
        Ok(()) => {
            if s.linked {
                fetch(
                    host,
                    image0,
                    image1,
                    events,
                    units,
                    c,
                    step.learnt,
                    s.link,
                    left,
                    count,
                )
            } else {
                stopped(RunAnswer::Done, 0, count, s.link, step.learnt)
            }
        }
    }
}

// Whether an answer says that the allowance is spent.
fn is_spent(answer: RunAnswer) -> bool
    ensures { Says result (answer ≡ RunAnswer.AllowanceSpent) }
{
    match answer {
        RunAnswer::AllowanceSpent => true,
        _ => false,
    }
}

// A chain in legs. Where a leg has spent its allowance and the chain has some left, the next begins where that one stopped.
fn legs(
    host: &mut [u8],
    image0: &mut [u8],
    image1: &mut [u8],
    events: &mut [u8],
    units: &mut Units,
    c: Controller,
    learnt: Learnt,
    at: u32,
    left: u32,
    count: Count,
) -> Outcome
    requires { Spare events.old left count × KnowsBoth learnt units.old.zero units.old.one }
    ensures { let before = world_of c host.old image0.old image1.old events.old units.old in
        let after = world_of c host.new image0.new image1.new events.new units.new in
        EndedIn (fetched left count at before) after result }
{
    let mut known = learnt;
    let mut from = at;
    let mut rest = left;
    let mut tally = count;
    while LEG < rest {
        let leg = fetch(
            host, image0, image1, events, units, c, known, from, LEG, tally,
        );
        let so_far = leg.end;
        let answer = so_far.answer;
        if !is_spent(answer) {
            return so_far;
        }
        let learnt = leg.learnt;
        known = learnt;
        from = leg.at;
        rest -= LEG;
        tally = Count {
            blocks: so_far.blocks,
            sectors: so_far.sectors,
        };
    }
    let leg = fetch(
        host, image0, image1, events, units, c, known, from, rest, tally,
    );
    leg.end
}

fn counted(count: Count, sectors: u16) -> Count
    requires { (count.blocks ≤ 64) × (count.sectors ≤ 65535 * count.blocks) }
    ensures { result ≡ counted count sectors }
{
    Count {
        blocks: count.blocks + 1,
        sectors: count.sectors + (sectors as u32),
    }
}

// Nothing counted: what a refused run answers, and what a chain begins with.
fn nothing() -> Count
    ensures { result ≡ nothing }
{
    Count {
        blocks: 0,
        sectors: 0,
    }
}

// Whether there is room for the entries of a whole run.
fn holds_entries(events: &[u8]) -> bool
    ensures { Says result (512 ≤ length events.now) }
{
    512 <= events.len()
}

fn is_allowance(n: u32) -> bool
    ensures { Says result ((1 ≤ n) × (n ≤ 64)) }
{
    if n == 0 {
        return false;
    }
    n <= 64
}

// A run that is refused counts nothing.
fn refused(answer: RunAnswer) -> Outcome
    ensures { result ≡ ended_of answer 0 nothing }
{
    ended(answer, 0, nothing())
}

// Runs the chain from the first block on, once the event buffer, the allowance and that block's place have been found good.
pub fn run(
    host: &mut [u8],
    image0: &mut [u8],
    image1: &mut [u8],
    events: &mut [u8],
    units: &mut Units,
    c: Controller,
    first: u32,
    allowance: u32,
) -> Outcome
    ensures { let before = world_of c host.old image0.old image1.old events.old units.old in
        let after = world_of c host.new image0.new image1.new events.new units.new in
        CameTo (ran first allowance before) after result }
{
    if !holds_entries(events) {
        return refused(RunAnswer::EventsShort);
    }
    if !is_allowance(allowance) {
        return refused(RunAnswer::AllowanceBad);
    }
    if !holds_block(host, first) {
        return refused(RunAnswer::FirstBad);
    }
    legs(
        host,
        image0,
        image1,
        events,
        units,
        c,
        unasked(),
        first,
        allowance,
        nothing(),
    )
}

// What a block told, as its caller goes by it.
fn stepped_with(told: BlockTold) -> Stepped
    ensures { result ≡ stepped_of told }
{
    Stepped {
        answer: told.answer,
        sectors: told.sectors,
        linked: told.linked,
        link: told.link,
    }
}

// Runs the one block at an address, as the block of a run after i others, and follows no link. Nothing is done where it cannot be fetched or has no room
// for its entry.
pub fn run_one(
    host: &mut [u8],
    image0: &mut [u8],
    image1: &mut [u8],
    events: &mut [u8],
    units: &mut Units,
    c: Controller,
    at: u32,
    i: u32,
) -> Option<Stepped>
    ensures { let before = world_of c host.old image0.old image1.old events.old units.old in
        RanOne before at i host.new image0.new image1.new events.new units.new result }
{
    if !holds_block(host, at) {
        return None;
    }
    if (events.len() as u64) < 8 * (i as u64) + 8 {
        return None;
    }
    let went = step(
        host,
        image0,
        image1,
        events,
        units,
        c,
        unasked(),
        at as usize,
        i as usize,
    );
    Some(stepped_with(went.told))
}
