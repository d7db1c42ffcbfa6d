// PNML texts that were written are read back: the theorem about the definitions of writing and reading. It has no code.
#![tactic(auto)]
