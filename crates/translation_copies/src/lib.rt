// What the copied records of a translated proof say: the laws of `copied` (no code).
#![tactic(auto)]
