// The derivation that is written derives the obligation's goal (laws, no code).
#![tactic(auto)]
