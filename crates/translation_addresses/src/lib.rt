// The addresses of the records that the translation writes, as laws (no code).
#![tactic(auto)]
