// The message with the fewest disagreements: definitions and laws, no functions.
#![tactic(auto)]
