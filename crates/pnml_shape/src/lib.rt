// The shape of the PNML texts that are written and read: definitions and theorems about them. It has no code.
#![tactic(auto)]
