// What lies between the machine and a device.
use machine_desk::Inbound;
use message_blocks::Block;

/// What lies between the machine and the device at a place (OpenFlow 1.0, 4.1, the channel).
#[derive(Drop)]
pub struct Channel {
    /// What the device appended, and how its session stands.
    pub(crate) inbound: Inbound,
    /// What was taken out for the device, and wasn't offered to it yet.
    pub(crate) to: Block,
    /// How many messages wait in the device.
    pub(crate) waiting: u64,
}
