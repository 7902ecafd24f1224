// Worked examples, proved: the starred lines of paper 01 in one table under one statement, and lines with bad tracks and spares.
// It may look inside the geometry, as no crate of the run may.
// Nothing depends on it.
#![tactic(auto)]
