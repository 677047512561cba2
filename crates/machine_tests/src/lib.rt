//! Tests that what other threads are to hold may go there and back, of one machine that two threads call, and of the work on a packet.
#![tactic(auto)]

#[cfg(test)]
mod halls;
#[cfg(test)]
mod stale;
#[cfg(test)]
mod threads;
#[cfg(test)]
mod waiting;
#[cfg(test)]
mod works;
