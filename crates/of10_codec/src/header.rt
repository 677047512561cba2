// Reading headers.
ghost use Rattle.std.specs.Prelude.{◌≡◌, IfOk, IfErr, Some};
ghost use Rattle.of10_codec.specs.Faults.{bad_of};
ghost use Rattle.of10_codec.specs.Reading.{ReadsHeader};

use crate::Bad;
use crate::number::{u8_at, u16_at, u32_at};

/// How many bytes a header has (OpenFlow 1.0, 5.1, ofp_header).
pub const HEADER_LEN: usize = 8;

/// The version of OpenFlow, which all messages but HELLO have.
pub const VERSION: u8 = 1;

// The types of messages (OpenFlow 1.0, 5.1, ofp_type).

/// The type of the one message that may have any version.
pub const HELLO: u8 = 0;

pub const ERROR: u8 = 1;

pub const ECHO_REQUEST: u8 = 2;

pub const ECHO_REPLY: u8 = 3;

pub const FEATURES_REQUEST: u8 = 5;

pub const FEATURES_REPLY: u8 = 6;

pub const SET_CONFIG: u8 = 9;

pub const PACKET_IN: u8 = 10;

pub const FLOW_REMOVED: u8 = 11;

pub const PORT_STATUS: u8 = 12;

pub const PACKET_OUT: u8 = 13;

pub const FLOW_MOD: u8 = 14;

pub const BARRIER_REQUEST: u8 = 18;

pub const BARRIER_REPLY: u8 = 19;

/// The type and the transaction id of a message.
#[derive(Clone, Copy)]
pub struct Header {
    pub kind: u8,
    pub xid: u32,
}

/// The header of a message, where its version and its length are right.
pub fn read_header(bytes: &[u8]) -> Result<Header, Bad>
    ensures found { IfOk result (λ header. ReadsHeader header.kind header.xid bytes.now) }
    ensures fault { IfErr result (λ bad. bad_of bytes.now ≡ Some bad) }
{
    if bytes.len() < HEADER_LEN {
        return Err(Bad::Short);
    }
    let kind = u8_at(bytes, 1);
    if kind != HELLO && u8_at(bytes, 0) != VERSION {
        return Err(Bad::Version);
    }
    let len = usize::from(u16_at(bytes, 2));
    if len < HEADER_LEN || len != bytes.len() {
        return Err(Bad::Length);
    }
    Ok(Header {
        kind,
        xid: u32_at(bytes, 4),
    })
}
