// What the programs share: their arguments, a file read into a lent area, bytes to standard output, a file written whole or not at all, messages.
#![tactic(auto)]

pub mod arguments;
pub mod files;
pub mod messages;
pub mod output;
pub mod saved;
