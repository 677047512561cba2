//! The words of a command line.
#![tactic(auto)]

pub mod laws;
mod options;
pub mod words;

pub use laws::grammar_law;
pub use words::{Command, command_of};
