//! The traces of a switch, with their tree and their rules.
#![tactic(auto)]

mod laws;
mod list;
mod traces;

pub use laws::traces_laws;
pub use traces::SwitchTraces;
