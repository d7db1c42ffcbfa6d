// A net with a marking as a drawing, and a drawing as a net with a marking: definitions and theorems about them. It has no code.
#![tactic(auto)]
