// The promises about the day's file are theorems over the contracts of its crates: there is no code here.
#![tactic(auto)]
