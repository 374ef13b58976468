// The derivation check's definitions, and theorems by computation, stand in specs/; its code is in `derivation_check` and the crates below that.
#![tactic(auto)]
