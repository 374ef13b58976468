// That the root of an accepted proof reaches every rule node, as laws (no code).
#![tactic(auto)]
