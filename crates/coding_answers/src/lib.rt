// What coding, replacing and the doors over a coding state answer and leave: definitions and laws, no code.
#![tactic(auto)]
