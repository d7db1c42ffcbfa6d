// Category files with borrowed texts, as document 01 had them, the conversion that gives each record its own text, and what it is worth. There
// is no code here.
#![tactic(auto)]
