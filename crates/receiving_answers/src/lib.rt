// What going back and its doors answer and leave: definitions and laws, no code.
#![tactic(auto)]
