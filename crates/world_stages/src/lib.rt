//! The stages of a session: what its switch's table may be while what is under way, and that each step of the
//! switch and each turn of the machine leads from a stage into a stage.
#![tactic(auto)]

pub mod flights;
pub mod switches;
pub mod turns;
pub mod updates;

pub use flights::{hearing_laws, sending_laws, step_laws};
pub use switches::{opening_law, switch_law};
pub use turns::turn_law;
pub use updates::update_laws;
