//! The world: the controller's machine, and a switch behind each of its connections, step by step.
#![tactic(auto)]

mod acting;
mod entering;
pub mod moves;
mod sending;
pub mod world;

pub use moves::{Move, Moved};
pub use world::{World, step_world};
