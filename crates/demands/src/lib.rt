// Demands 1 and 2 as theorems about the definition of a run: when each answer is given, what is written and what stays.
// Which blocks a run fetches, and what each reads and writes, is defined here; demand 3 is stated over it.
// It has no code: that the code is that definition is the promise of block and board.
#![tactic(auto)]
