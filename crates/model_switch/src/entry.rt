// Calls of a device, as they are kept.
use device_port::Took;
use maple_base::{Bytes, Seen, Turned};

/// A call of a device: what was given to it, its answer, and the bytes that it appended.
#[derive(Drop)]
pub enum Entry {
    Offer(Bytes, Took),
    Turn(Turned, Bytes),
    Packet(u16, Bytes, Seen, Bytes),
}
