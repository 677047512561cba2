//! Jobs in a queue, workers that take them, work them at a machine under a lock and sleep where there are none, and a
//! crew of workers beside a driver.
#![tactic(auto)]

mod crew;
mod drives;
mod gave_up;
mod lobby;
mod queue;
pub mod rule;
mod worker;
mod works;

pub use crew::with_workers;
pub use drives::Drives;
pub use gave_up::GaveUp;
pub use lobby::{Lobby, News};
pub use queue::{JobPass, Jobs};
pub use worker::serve;
pub use works::Works;
