// The tree that is chosen for a formula without until: truth by evaluation, the tree, its numbering and its bytes. There is no code here.
#![tactic(auto)]
