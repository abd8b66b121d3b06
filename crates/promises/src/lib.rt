// The promises are theorems over the contracts of the crate lora: there is no code here.
#![tactic(auto)]
