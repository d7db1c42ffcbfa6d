// The tables of an accepted tree without the formula records that the asked one does not reach: their definition, the answer, and the theorem
// that they are accepted and claim the same. There is no code here.
#![tactic(auto)]
