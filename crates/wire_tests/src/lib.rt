//! Tests of the adapters over the readers and writers of std, which no case can say.
#![tactic(auto)]

#[cfg(test)]
mod adapters;
