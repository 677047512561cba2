//! Cases of what the controller knows of its network: the environment, next hops, flow tables, recorded runs, and trees of traces with their rules.
#![tactic(auto)]

mod admission;
mod asking;
mod changing;
mod environment;
mod flow_tables;
mod learned;
mod network;
mod places;
mod policies;
mod recorded;
mod room;
mod rules;

use case_text::{Program, check_file, check_files};
use environment::Environment;
use flow_tables::FlowTable;
use learned::Learned;
use network::Network;
use policies::Policies;
use std::io;
use std::io::ErrorKind;

struct Cases;

impl Program for Cases {
    fn check(rt: &HostRuntime, subject: &str, file: &str) -> io::Result<bool> {
        match subject {
            "environment" => check_file::<Environment>(rt, file),
            "network" => check_file::<Network>(rt, file),
            "table" => check_file::<FlowTable>(rt, file),
            "policy" => check_file::<Policies>(rt, file),
            "tree" => check_file::<Learned>(rt, file),
            _ => Err(io::Error::from(ErrorKind::NotFound)),
        }
    }
}

fn main(rt: HostRuntime) -> io::Result<()> {
    check_files::<Cases>(&rt)
}
