#![tactic(auto)]

// Laws on lists, tests and repetition that several crates cite. There is no code here.
