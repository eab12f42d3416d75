// Rules 1 to 6 of document 01 over a frame, there and back: definitions and laws, no code.
#![tactic(auto)]
