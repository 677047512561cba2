//! What holds of every history of the machine.
#![tactic(auto)]

pub mod laws;

pub use laws::history_laws;
