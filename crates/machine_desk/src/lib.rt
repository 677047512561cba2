//! The desk at which the controller's machine is driven: the pass that leads in its hall, what all drivers do in the same way,
//! and the packets that wait: they are handed to workers by a queue, worked by the driver itself where the workers don't take
//! them, and waited for.
#![tactic(auto)]

pub mod arriving;
pub mod asking;
pub mod crew;
pub mod desk;
pub mod hearing;
pub mod inbound;
pub mod laws;
pub mod opening;
pub mod report;
pub mod resting;
pub mod stopped;
pub mod tending;

pub use arriving::is_packet;
pub use asking::DeskStop;
pub use crew::{Crew, MOST_WORKERS, QUEUE_PLACES};
pub use desk::{Desk, Worn};
pub use hearing::{Came, Heard};
pub use inbound::{Inbound, Stage};
pub use laws::{desk_laws, driving_laws, hearing_laws, tending_laws, working_laws};
pub use opening::{Opening, close_hall, open_hall};
pub use report::ReportStop;
pub use resting::write_rest;
pub use stopped::{Stopped, answered};
pub use tending::{Broken, Handed, Tender};
