//! What lies behind a connection of a world: a switch in memory, and what is on its way between it and the controller.
#![tactic(auto)]

pub mod acting;
mod pending;
pub mod place;
mod processing;
pub mod said;
mod taking;

pub use acting::{Act, Acted, carry_out_at};
pub use place::{Place, forget_first, is_first, make_room, opened, place_of, put};
pub use said::is_free;
