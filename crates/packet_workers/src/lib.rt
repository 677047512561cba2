//! A packet that waits is answered by a thread that shares the machine with others.
#![tactic(auto)]

mod gate;
mod packet_works;
mod view;
mod worked;
mod working;

pub use gate::{Gate, Open};
pub use packet_works::PacketWorks;
pub use worked::Worked;
pub use working::work;
