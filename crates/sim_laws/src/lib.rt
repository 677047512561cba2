//! What holds of all that is done with the machine and the devices of a simulation.
#![tactic(auto)]

pub mod laws;

pub use laws::{agreeing_laws, past_law, world_law};
