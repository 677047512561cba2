//! A script run over the controller's machine and devices: what each order asks for, and all of them with their report.
#![tactic(auto)]

mod alone;
mod arriving;
mod changing;
mod crewed;
pub mod drive;
mod finishing;
mod following;
mod lines;
mod obeying;
mod places;
mod plugging;

pub use drive::{SimEnd, run_sim};
