//! The world: the controller's machine, and the switches behind its connections.
#![tactic(auto)]

pub mod laws;

pub use laws::world_laws;
