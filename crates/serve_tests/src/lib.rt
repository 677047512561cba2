//! Tests of serving, of what no case can say.
#![tactic(auto)]

#[cfg(test)]
mod held;
#[cfg(test)]
mod running;
#[cfg(test)]
mod sockets;
