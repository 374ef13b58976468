// The proof check's definitions, and theorems by computation, stand in specs/; its code is in `proof_check` and the crates below that.
#![tactic(auto)]
