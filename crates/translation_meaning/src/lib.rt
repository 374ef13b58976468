// What the translation of an accepted proof is: a derivation that the derivation check accepts (definitions and theorems, no code).
#![tactic(auto)]
