//! The driver of the controller's machine and devices, and the channels between the two.
#![tactic(auto)]

pub mod calling;
pub mod channel;
mod crew;
mod deliver;
mod desk;
pub mod driver;
mod hear;
pub mod laws;
mod noting;
mod offering;
mod outbox;
mod sessions;
mod staging;
mod taking;
mod waiting;

pub use calling::Answer;
pub use channel::Channel;
pub use driver::Driver;
pub use laws::resting_laws;
pub use machine_desk::{Stopped, driving_laws};
pub use outbox::connection_of;
