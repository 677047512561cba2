//! Tests of a board over sockets, with peers of 127.0.0.1.
#![tactic(auto)]

#[cfg(test)]
mod stage;
#[cfg(test)]
mod tests;
