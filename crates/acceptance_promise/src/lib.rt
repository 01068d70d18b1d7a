// What acceptance promises to whoever stands above: specs/ has the laws. No code.
#![tactic(auto)]
