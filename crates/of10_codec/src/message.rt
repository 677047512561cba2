// Messages between a controller and a switch.
ghost use Rattle.std.specs.Prelude.{◌≡◌, length};
ghost use Rattle.of10_codec.specs.Written.{written};

use crate::encoding::lengths::len_of;
use crate::header::HEADER_LEN;
use maple_base::{Actions, Bytes, Match, Port, Ports};

/// A message (OpenFlow 1.0, 5.1) with its transaction id, which a reply repeats.
#[derive(Drop)]
pub struct Message {
    pub xid: u32,
    pub body: Body,
}

impl Message {
    /// How many bytes `encode` appends for the message, where they are not too many.
    pub fn encoded_len(&self) -> u128
        ensures { result ≡ length (written self.now) }
    {
        HEADER_LEN as u128 + len_of(&self.body)
    }
}

/// What a message says.
#[derive(Drop)]
pub enum Body {
    /// The first message of each side, with the greatest version that it speaks (5.5.1). It is
    /// sent with version 1.
    Hello {
        version: u8,
    },
    /// Something failed: its kind, its code within that kind, and data of any length (5.4.4).
    Error {
        kind: u16,
        code: u16,
        bytes: Bytes,
    },
    /// Asks for an echo of data of any length (5.5.2).
    EchoRequest(Bytes),
    /// The data of an echo request (5.5.3).
    EchoReply(Bytes),
    /// Asks what the switch is (5.3.1).
    FeaturesRequest,
    /// The switch's datapath id and its ports (5.3.1).
    FeaturesReply {
        dpid: u64,
        ports: Ports,
    },
    /// How many bytes of a packet a switch sends to the controller, at most (5.3.2).
    SetConfig {
        miss_send_len: u16,
    },
    /// A packet that came to the controller (5.4.1): the buffer that the switch keeps it in, or
    /// 0xffffffff, its whole length, the port that it came in by, 0 for no matching rule or 1 for a
    /// rule's action, and its first bytes.
    PacketIn {
        buffer: u32,
        total: u16,
        in_port: u16,
        reason: u8,
        bytes: Bytes,
    },
    /// A rule that the switch let go (5.4.2): its match, cookie and priority, why it went, and the
    /// seconds without a packet after which it was to go.
    FlowRemoved {
        of: Match,
        cookie: u64,
        priority: u16,
        reason: u8,
        idle: u16,
    },
    /// A port that was added (0), deleted (1) or changed (2) (5.4.3).
    PortStatus {
        reason: u8,
        port: Port,
    },
    /// A packet to be sent (5.3.6): the buffer that the switch keeps it in, or 0xffffffff for the
    /// bytes themselves, the port that it came in by, and the ports that it is sent out of.
    PacketOut {
        buffer: u32,
        in_port: u16,
        actions: Actions,
        bytes: Bytes,
    },
    /// A change of the flow table (5.3.3): the rule's match and cookie, the command, the seconds
    /// after which the rule goes without a packet, and at all, its priority, a packet to be sent by
    /// it, the port that a deletion is restricted to, flags, and the ports that packets are sent
    /// out of.
    FlowMod {
        of: Match,
        cookie: u64,
        command: u16,
        idle: u16,
        hard: u16,
        priority: u16,
        buffer: u32,
        out_port: u16,
        flags: u16,
        actions: Actions,
    },
    /// Asks for a reply once all messages before it are done (5.3.7).
    BarrierRequest,
    /// All messages before the request are done (5.3.7).
    BarrierReply,
    /// A message of any other type, whose body is not kept.
    Other {
        kind: u8,
    },
}
