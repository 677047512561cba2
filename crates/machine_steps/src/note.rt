// What a driver did with its devices.
use maple_base::{Bytes, Seen, Turned};

/// Something that the driver did. Lines of the report tell the others than `Offered`, `Turned`, and `Seen` of a failure.
#[derive(Drop)]
pub enum Note {
    /// A message was offered to the device.
    Offered {
        device: u32,
        failed: bool,
    },
    /// The device took a turn.
    Turned {
        device: u32,
        turned: Turned,
    },
    /// A frame came to the device by this port.
    Seen {
        device: u32,
        port: u16,
        frame: Bytes,
        seen: Seen,
    },
    /// The device took so many turns.
    TurnedAll {
        device: u32,
        turns: u32,
    },
    /// After so many turns no device had a message to answer.
    Settled(u32),
    /// After so many turns some device had one.
    Unsettled(u32),
    /// The device isn't plugged in.
    Absent(u32),
    /// The device was left.
    GoneAlready(u32),
    /// The device is plugged in already.
    Present(u32),
    /// The text of a new policy has a fault, of this number, at this line and column.
    PolicyRefused {
        line: u32,
        column: u32,
        kind: u8,
    },
    /// A line of the script is refused: 1 it is no command, 2 it is too long, 3 it names no device.
    LineRefused {
        line: u32,
        kind: u8,
    },
}
