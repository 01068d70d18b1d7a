// The theory of work in windows: specs/ has it. No code.
#![tactic(auto)]
