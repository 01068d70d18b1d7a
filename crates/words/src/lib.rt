// The words of every definition: specs/ has them. No code.
#![tactic(auto)]
