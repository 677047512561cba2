//! A server of switches: the controller's machine at its desk, and the connections of switches over a board.
#![tactic(auto)]

mod attending;
mod closing;
pub mod connection;
mod controlling;
mod delivering;
mod hearing;
pub mod laws;
mod obeying;
mod receiving;
mod reporting;
pub mod scripting;
pub mod server;
mod sessions;
mod starting;
mod waiting;

pub use connection::Connection;
pub use laws::{fresh_law, serving_laws};
pub use scripting::ScriptEnd;
pub use server::Server;
