//! Tests of next hops in networks with random links, each against a search of its own.
#![tactic(auto)]

#[cfg(test)]
mod networks;
#[cfg(test)]
mod random_links;
#[cfg(test)]
mod walks;
