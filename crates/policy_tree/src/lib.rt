//! The syntax tree of a policy's text.
#![tactic(auto)]

pub mod building;
mod expressions;
mod heads;
mod laws;
mod pile;
mod state;
mod statements;

pub use building::{PolicyParts, build};
pub use laws::one_file;
