// The records that a proof is translated to: copies and blocks, written one after the other into a buffer that the caller lends.
#![tactic(auto)]

pub mod blocks;
pub mod copies;
pub mod records;
