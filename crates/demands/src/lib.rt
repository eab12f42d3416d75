// The demands of document 01: its sums done by hand, and that frames come back: definitions and theorems, no functions.
#![tactic(auto)]
