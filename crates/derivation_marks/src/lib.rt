// Which records a constant occurs in, types removed.
#![tactic(auto)]

pub mod marks;
