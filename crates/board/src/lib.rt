// The run of the V/SMD 3200: a chain of blocks, each fetched and executed, with its answer and its counts; and the inspection call.
// What one block does is block's, and is used by its promise alone; here is which block comes next, and on whose drive.
// It trusts no caller: any memory, images, records, address and allowance get an answer.
#![tactic(auto)]

use unit::Unit;

mod chain;
mod inspection;

pub use chain::{Count, Outcome, Stepped, run, run_one};
pub use inspection::{Part, inspect, part_of};

// The two units.
#[derive(Clone, Copy)]
pub struct Units {
    pub zero: Unit,
    pub one: Unit,
}
