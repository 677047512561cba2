// Messages whose bytes are lent.
ghost use Rattle.std.specs.Prelude.{◌≡◌, length, IfOk};
ghost use Rattle.of10_codec.specs.Lent.{body_of, message_of};
ghost use Rattle.of10_codec.specs.Written.{written};

use crate::encoding::lengths::lent_len;
use crate::header::HEADER_LEN;
use crate::port_reading::read_ports;
use crate::{Body, Message};
use maple_base::{Actions, Bytes, Match, NoMemory, Port};
use std::alloc::Global;

/// A message whose bytes lie where it was read.
#[derive(Clone, Copy, Debug, PartialEq, Eq)]
pub struct MessageRef<'a> {
    pub xid: u32,
    pub body: BodyRef<'a>,
}

/// What a message says, as `Body` has it. The ports of a FEATURES_REPLY are lent as their bytes, 48
/// a port.
#[derive(Clone, Copy, Debug, PartialEq, Eq)]
pub enum BodyRef<'a> {
    Hello {
        version: u8,
    },
    Error {
        kind: u16,
        code: u16,
        bytes: &'a [u8],
    },
    EchoRequest(&'a [u8]),
    EchoReply(&'a [u8]),
    FeaturesRequest,
    FeaturesReply {
        dpid: u64,
        ports: &'a [u8],
    },
    SetConfig {
        miss_send_len: u16,
    },
    PacketIn {
        buffer: u32,
        total: u16,
        in_port: u16,
        reason: u8,
        bytes: &'a [u8],
    },
    FlowRemoved {
        of: Match,
        cookie: u64,
        priority: u16,
        reason: u8,
        idle: u16,
    },
    PortStatus {
        reason: u8,
        port: Port,
    },
    PacketOut {
        buffer: u32,
        in_port: u16,
        actions: Actions,
        bytes: &'a [u8],
    },
    FlowMod {
        of: Match,
        cookie: u64,
        command: u16,
        idle: u16,
        hard: u16,
        priority: u16,
        buffer: u32,
        out_port: u16,
        flags: u16,
        actions: Actions,
    },
    BarrierRequest,
    BarrierReply,
    Other {
        kind: u8,
    },
}

impl MessageRef<'_> {
    /// The message with bytes of its own.
    pub fn to_message(&self, alloc: Global) -> Result<Message, NoMemory>
        ensures { IfOk result (λ message. message ≡ message_of self.now) }
    {
        Ok(Message {
            xid: self.xid,
            body: self.body.to_body(alloc)?,
        })
    }

    /// How many bytes `encode_ref` appends for the message, where they are not too many.
    pub fn encoded_len(&self) -> u128
        ensures { result ≡ length (written (message_of self.now)) }
    {
        HEADER_LEN as u128 + lent_len(&self.body)
    }
}

impl BodyRef<'_> {
    fn to_body(&self, alloc: Global) -> Result<Body, NoMemory>
        ensures { IfOk result (λ body. body ≡ body_of self.now) }
    {
        let body = match *self {
            BodyRef::Hello { version } => Body::Hello { version },
            BodyRef::Error { kind, code, bytes } => Body::Error {
                kind,
                code,
                bytes: copy(alloc, bytes)?,
            },
            BodyRef::EchoRequest(bytes) => Body::EchoRequest(copy(alloc, bytes)?),
            BodyRef::EchoReply(bytes) => Body::EchoReply(copy(alloc, bytes)?),
            BodyRef::FeaturesRequest => Body::FeaturesRequest,
            BodyRef::FeaturesReply { dpid, ports } => Body::FeaturesReply {
                dpid,
                ports: read_ports(alloc, ports)?,
            },
            BodyRef::SetConfig { miss_send_len } => Body::SetConfig { miss_send_len },
            BodyRef::PacketIn {
                buffer,
                total,
                in_port,
                reason,
                bytes,
            } => Body::PacketIn {
                buffer,
                total,
                in_port,
                reason,
                bytes: copy(alloc, bytes)?,
            },
            BodyRef::FlowRemoved {
                of,
                cookie,
                priority,
                reason,
                idle,
            } => Body::FlowRemoved {
                of,
                cookie,
                priority,
                reason,
                idle,
            },
            BodyRef::PortStatus { reason, port } => Body::PortStatus { reason, port },
            BodyRef::PacketOut {
                buffer,
                in_port,
                actions,
                bytes,
            } => Body::PacketOut {
                buffer,
                in_port,
                actions,
                bytes: copy(alloc, bytes)?,
            },
            BodyRef::FlowMod {
                of,
                cookie,
                command,
                idle,
                hard,
                priority,
                buffer,
                out_port,
                flags,
                actions,
            } => Body::FlowMod {
                of,
                cookie,
                command,
                idle,
                hard,
                priority,
                buffer,
                out_port,
                flags,
                actions,
            },
            BodyRef::BarrierRequest => Body::BarrierRequest,
            BodyRef::BarrierReply => Body::BarrierReply,
            BodyRef::Other { kind } => Body::Other { kind },
        };
        Ok(body)
    }
}

// bytes of one's own
fn copy(alloc: Global, bytes: &[u8]) -> Result<Bytes, NoMemory>
    ensures { IfOk result (λ own. own ≡ bytes.now) }
{
    Ok(Bytes::new(Vec::from_slice(alloc, bytes)?))
}
