// Each rule node of the written derivation is named exactly once, as theorems (no code).
#![tactic(auto)]
