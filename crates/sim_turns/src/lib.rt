//! Turns of devices, what they bring about at once, and what is told of them.
#![tactic(auto)]

pub mod attend;
mod hear;
mod noting;
mod settling;
mod telling;
mod turning;

pub use noting::note;
pub use settling::settle;
pub use turning::turn;
