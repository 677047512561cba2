//! Cases of updates, sessions, the machine, worlds and devices, call by call.
#![tactic(auto)]

mod begun;
mod connection_entries;
mod devices;
mod driver;
mod entries;
mod heard;
mod limits;
mod lists;
mod messages;
mod moves;
mod notes;
mod offers;
mod packet_entries;
mod packet_replies;
mod plans;
mod recording;
mod replies;
mod sessions;
mod targets;
mod worlds;

use begun::Begun;
use case_text::{Program, check_file, check_files};
use devices::Tried;
use driver::Driver;
use sessions::Sessions;
use std::io;
use std::io::ErrorKind;
use world_model::World;

struct Machines;

impl Program for Machines {
    fn check(rt: &HostRuntime, subject: &str, file: &str) -> io::Result<bool> {
        match subject {
            "sessions" => check_file::<Sessions>(rt, file),
            "machine" => check_file::<Begun<Driver>>(rt, file),
            "worlds" => check_file::<Begun<World>>(rt, file),
            "devices" => check_file::<Begun<Tried>>(rt, file),
            _ => Err(io::Error::from(ErrorKind::NotFound)),
        }
    }
}

fn main(rt: HostRuntime) -> io::Result<()> {
    check_files::<Machines>(&rt)
}
