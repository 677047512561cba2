//! The flow table of a switch: its rules, what changes do to them, and which one is chosen for a
//! packet.
#![tactic(auto)]

mod applied;
mod change;
mod lookup;
mod table;

pub use applied::Applied;
pub use table::Table;
