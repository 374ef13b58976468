// All entries of the desk and nothing else. The crate favashears_c gives them to C.
#![tactic(auto)]

pub mod entries;
