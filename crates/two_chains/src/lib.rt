// Two chains run one after the other, each by either controller and with an event buffer of its own, in the order that is asked for.
// Demand 3 is about the definition of a run (crate independence); here it is about what runs: both orders hand back the same.
// It runs nothing by itself but board's run, twice, and asks nothing of the two chains.
#![tactic(auto)]

ghost use Rattle.std.specs.Prelude.{◌≡◌};
ghost use Rattle.two_chains.specs.declared.Order.{Order};
ghost use Rattle.two_chains.specs.Orders.{IsRunOf, both_of, chain_of, lent_to, ran_both, ran_both_of};

use board::{Outcome, Units};
use unit::Controller;

// A chain as it is asked for: which controller runs it, from which block on, and how many blocks it may fetch.
#[derive(Clone, Copy)]
pub struct Chain {
    pub controller: Controller,
    pub first: u32,
    pub allowance: u32,
}

// Which of two chains is run first.
#[derive(Clone, Copy)]
pub enum Order {
    FirstThenSecond,
    SecondThenFirst,
}

// What two chains came to.
#[derive(Clone, Copy)]
pub struct Twice {
    pub first: Outcome,
    pub second: Outcome,
}

// One of two chains, on the memory of the controller that runs it. The other memory is left as it is.
fn run_on_its_own(
    host1: &mut [u8],
    host2: &mut [u8],
    image0: &mut [u8],
    image1: &mut [u8],
    events: &mut [u8],
    units: &mut Units,
    k: Chain,
) -> Outcome
    ensures { let before = lent_to host1.old host2.old image0.old image1.old events.old units.old in
        let after = lent_to host1.new host2.new image0.new image1.new events.new units.new in
        IsRunOf (chain_of k) before after result }
{
    let Chain {
        controller,
        first,
        allowance,
    } = k;
    match controller {
        Controller::First => board::run(
            host1, image0, image1, events, units, controller, first, allowance,
        ),
        Controller::Second => board::run(
            host2, image0, image1, events, units, controller, first, allowance,
        ),
    }
}

// The first chain and then the second.
fn in_turn(
    host1: &mut [u8],
    host2: &mut [u8],
    image0: &mut [u8],
    image1: &mut [u8],
    events1: &mut [u8],
    events2: &mut [u8],
    units: &mut Units,
    one: Chain,
    two: Chain,
) -> Twice
    ensures { let before = both_of host1.old host2.old image0.old image1.old events1.old
        events2.old units.old in
        let after = both_of host1.new host2.new image0.new image1.new events1.new
        events2.new units.new in
        ran_both_of result after ≡ ran_both Order.FirstThenSecond (chain_of one) (chain_of two) before }
{
    let first = run_on_its_own(host1, host2, image0, image1, events1, units, one);
    let second = run_on_its_own(host1, host2, image0, image1, events2, units, two);
    Twice { first, second }
}

// Runs two chains one after the other, each by its controller on that one's memory and with an event buffer of its own.
pub fn run_both(
    host1: &mut [u8],
    host2: &mut [u8],
    image0: &mut [u8],
    image1: &mut [u8],
    events1: &mut [u8],
    events2: &mut [u8],
    units: &mut Units,
    order: Order,
    one: Chain,
    two: Chain,
) -> Twice
    ensures { let before = both_of host1.old host2.old image0.old image1.old events1.old
        events2.old units.old in
        let after = both_of host1.new host2.new image0.new image1.new events1.new
        events2.new units.new in
        ran_both_of result after ≡ ran_both order (chain_of one) (chain_of two) before }
{
    match order {
        Order::FirstThenSecond => in_turn(
            host1, host2, image0, image1, events1, events2, units, one, two,
        ),
        Order::SecondThenFirst => {
            let exchanged = in_turn(
                host1, host2, image0, image1, events2, events1, units, two, one,
            );
            Twice {
                first: exchanged.second,
                second: exchanged.first,
            }
        }
    }
}
