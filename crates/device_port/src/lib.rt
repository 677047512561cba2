//! What a switch may do, and a switch behind its connection as the program sees it.
#![tactic(auto)]

pub mod device;

pub use device::{Device, Took};
