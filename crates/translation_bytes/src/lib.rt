// That the bytes of the translation read back as its records, as laws (no code).
#![tactic(auto)]
