// The answer of writing a tree, and the theorem that what is written is accepted and its claim true. There is no code here.
#![tactic(auto)]
