// Laws on lists, tests and filling loops that several crates cite. There is no code here.
#![tactic(auto)]
