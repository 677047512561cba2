//! What a turn of the machine does to each session, what its replies tell, and that what it sends can be
//! offered to a switch.
#![tactic(auto)]

pub mod moves;
pub mod replies;
pub mod sends;

pub use moves::{growth_laws, session_laws};
pub use replies::reply_laws;
pub use sends::sends_law;
