//! The rules of a tree of traces, and which of them a switch may choose.
#![tactic(auto)]

pub mod building;
mod current;
pub mod laws;

pub use building::{rules, rules_where};
pub use laws::{choice_law, rules_law, rules_rows};
