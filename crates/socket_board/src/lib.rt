//! A board of connections over TCP sockets of 127.0.0.1, none of which blocks.
#![tactic(auto)]

mod board;
mod control;
mod links;
mod listening;
mod sockets;
mod waits;

pub use board::SocketBoard;
