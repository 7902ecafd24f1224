// Demand 3: two chains that share no unit and no byte that one of them writes can be run in either order.
// Steps that read and write some cells, and when two of them commute, stand in specs/Local, free of blocks and chains.
// Pairs of chains show what its condition lets through and what goes wrong where a part of it fails: specs/TwoChains,
// NotCounted, FromDisk and TwoControllers.
// It has no code: it speaks of the definition of a run, and the crate two_chains of what runs.
#![tactic(auto)]
