// Demand 3's last sentence as theorems: a plan is refused exactly when it is hopeless. specs/ has them. No code.
#![tactic(auto)]
