// The translation: templates, addresses and what is written, as definitions (no code).
#![tactic(auto)]
