// Text put behind other text in a lent area.
#![tactic(auto)]

pub mod text;
