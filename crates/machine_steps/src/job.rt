// An open job.
use maple_base::{Bytes, Key};

/// A packet that waits for an answer.
#[derive(Drop)]
pub struct Job {
    /// Its number, from 1 on.
    pub number: u64,
    /// The connection that it came by.
    pub connection: u32,
    /// The datapath id of the switch that it came to.
    pub switch: u64,
    pub key: Key,
    /// Where the switch keeps it, or 0xffffffff.
    pub buffer: u32,
    /// Its bytes, where the switch keeps none.
    pub frame: Bytes,
}
