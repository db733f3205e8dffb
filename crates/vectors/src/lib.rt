// Worked examples: each definition computed or witnessed on small inputs.
#![tactic(auto)]
