//! A server over its board: a whole run, turn by turn.
#![tactic(auto)]

mod alone;
mod beginning;
mod crewed;
mod ending;
mod entering;
mod laws;
pub mod pump;
mod resting;
mod running;
mod serve;
pub mod startup;
mod turning;

pub use pump::{Pump, TurnStop};
pub use serve::run_serve;
