//! Every run of the world is right.
#![tactic(auto)]

pub mod laws;

pub use laws::{hit_laws, run_laws};
