// What a session tells of what it heard.
use maple_base::{Bytes, Ports};
use of10_codec::Bad;

/// How far a session has come.
#[derive(Clone, Copy, Debug, PartialEq, Eq)]
pub enum Phase {
    /// A HELLO was sent, and none was heard.
    First,
    /// HELLOs were exchanged, and the switch is asked what it is.
    Second,
    /// The session was accepted.
    Live,
    /// It ended.
    Ended,
}

/// Why a session ends.
#[derive(Clone, Copy, Debug, PartialEq, Eq)]
pub enum End {
    /// At this place of the stream, counted in bytes, no message begins.
    Bad { place: u64, bad: Bad },
    /// The switch's HELLO has version 0.
    Version,
    /// A live session has this switch.
    Twice(u64),
    /// As many sessions are open, or switches known, as there may be.
    Full,
    /// A clearing of the table was refused.
    ClearRefused,
    /// The reply to the barrier of this number came ahead of the request.
    Early(u32),
    /// No numbers are left for a further part of an update.
    Xids,
    /// The connection was closed.
    LinkEnd,
    /// The connection failed.
    LinkFault,
}

/// What a session makes of a message.
#[derive(Drop)]
pub enum Heard {
    /// Nothing that the caller has to know.
    Passed,
    /// The switch's number and its ports. The session waits to be accepted.
    Features {
        dpid: u64,
        ports: Ports,
    },
    /// A packet came to the controller: the switch's buffer, the port that it came in by, its bytes.
    PacketIn {
        buffer: u32,
        in_port: u16,
        frame: Bytes,
    },
    /// A port, 1 to 65,280, went up or down.
    Port {
        port: u16,
        up: bool,
    },
    /// The reply to the outstanding barrier. At the first one the session is ready.
    Acknowledged {
        ready: bool,
    },
    /// The switch refused something. At the first error of a batch the session becomes quiet.
    Refused {
        kind: u16,
        code: u16,
        quiet: bool,
    },
    /// The session ended.
    Ended(End),
}
