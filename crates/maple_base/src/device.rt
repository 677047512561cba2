// What a device, a switch behind its connection, answers.
use crate::Actions;

/// What a turn of a device did: it takes one pending message.
#[derive(Clone, Copy, Debug, PartialEq, Eq)]
pub enum Turned {
    /// No message was pending.
    Nothing,
    /// The message of this transaction id was processed.
    Processed { xid: u32 },
    /// The change of this transaction id was refused.
    Refused { xid: u32 },
    /// The device failed.
    Failed,
    /// Memory ran out.
    NoMemory,
}

/// What a device did with a packet that came in by one of its ports.
#[derive(Clone, Copy, Debug, PartialEq, Eq)]
pub enum Seen {
    /// A rule with these actions was chosen.
    Hit(Actions),
    /// It was sent to the controller, for this reason (OpenFlow 1.0, 5.4.1).
    Miss { reason: u8 },
    /// The device failed.
    Failed,
    /// Memory ran out.
    NoMemory,
}
