// The listing of a proof: definitions in specs/, no code.
#![tactic(auto)]
