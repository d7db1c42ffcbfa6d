// What transition records without marks meant before document 02's F-4, and that they get the same answers: definitions and theorems. It has no code.
#![tactic(auto)]
