// The programs `frames`, `coding` and `receiving` over a whole text: definitions and theorems, no functions.
#![tactic(auto)]
