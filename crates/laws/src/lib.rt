#![tactic(auto)]

// Theorems over several crates. There is no code here.
