// The demands as theorems: specs/ has them. No code.
#![tactic(auto)]
