// What is told of the work on a packet.

/// Who is told of the work on a packet, and may hold it up.
pub trait Gate {
    /// The first Commit of this job comes next. Where there is none, it isn't called.
    fn before(&self, job: u64);

    /// The work on this job is over, and so many of its ReadCells were answered; at most 2^32 - 1 are counted.
    fn after(&self, job: u64, asked: u32);
}

/// Lets all work go on.
#[derive(Clone, Copy, Debug)]
pub struct Open;

impl Gate for Open {
    fn before(&self, _job: u64) {}

    fn after(&self, _job: u64, _asked: u32) {}
}
