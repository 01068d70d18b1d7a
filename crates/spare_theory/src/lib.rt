// What spares are, of a plan in order: due sums in disguise. specs/ has the laws, and A1 and A2 as statements. No code.
#![tactic(auto)]
