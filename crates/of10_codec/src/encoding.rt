// Writing messages.
ghost use Rattle.std.specs.Prelude.{◌≡◌, ◌+◌, ◌≤◌, ◌++◌, true, length, vec_len, vec_capacity, OnOk, OnErr, IfErr};
ghost use Rattle.of10_codec.specs.Types.{most_bytes, type_of};
ghost use Rattle.of10_codec.specs.Laws.{has_bits};
ghost use Rattle.maple_base.specs.NetworkOrder.{number};
ghost use Rattle.of10_codec.specs.Lent.{body_of, message_of};
ghost use Rattle.of10_codec.specs.Written.{written, written_match, sent, match_fits_fields, fits_fields};
ghost use Rattle.of10_codec.specs.Messages.{Spelled};
ghost use Rattle.of10_codec.specs.Answers.{IsTooLong, LackedRoom};

mod append;
mod bodies;
pub(crate) mod lengths;
mod matches;
mod outputs;
mod ports;

use crate::header::{
    BARRIER_REPLY, BARRIER_REQUEST, ECHO_REPLY, ECHO_REQUEST, ERROR, FEATURES_REPLY,
    FEATURES_REQUEST, FLOW_MOD, FLOW_REMOVED, HELLO, PACKET_IN, PACKET_OUT, PORT_STATUS,
    SET_CONFIG, VERSION,
};
use crate::{Body, BodyRef, EncodeError, Message, MessageRef};
use append::{append_u8, append_u16, append_u32};
use bodies::{append_body, append_lent_body};
use maple_base::Match;
pub(crate) use matches::bytes_of;

// The most bytes that a message has: its header tells their number in 16 bits.
const MOST_BYTES: u128 = u16::MAX as u128;

/// Appends the bytes of a message. Each number fits its field: the Ethernet addresses of a match are
/// below 2^48, and the reason of a port status is at most 2; and the type of an `Other` is none that
/// `Body` names. Where `out` has room for the bytes it takes no memory.
///
/// # Errors
///
/// `TooLong` with the number of bytes, where the message has more than 65,535. After an error `out`
/// has what it had.
pub fn encode(message: &Message, out: &mut Vec<u8>) -> Result<(), EncodeError>
    requires { fits_fields message.now.body ≡ true }
    ensures ok { OnOk result (out.new.items ≡ out.old.items ++ written message.now) }
    ensures short { OnOk result (length (written message.now) ≤ most_bytes) }
    ensures spelled { OnOk result (Spelled (sent message.now) (written message.now)) }
    ensures error { IfErr result (λ error. IsTooLong error message.now) }
    ensures kept { OnErr result (out.new.items ≡ out.old.items) }
    ensures room { IfErr result (λ error. LackedRoom error (vec_len out.old + length (written message.now)) (vec_capacity out.old)) }
    ensures capacity { vec_capacity out.old ≤ vec_capacity out.new }
{
    let len = message.encoded_len();
    if len > MOST_BYTES {
        return Err(EncodeError::TooLong(len));
    }
    // All room at once, so that nothing fails once `out` has changed.
    if out.reserve(len as usize).is_err() {
        return Err(EncodeError::NoMemory);
    }
    append_header(kind_of(&message.body), len as u16, message.xid, out);
    append_body(&message.body, out);
    Ok(())
}

/// Appends the bytes of the message that a lent one shows, as `encode` does with that of
/// `to_message`, without a copy of its own: the pads of lent ports are written as 0, and of their
/// bytes those behind the last whole port are left out.
///
/// # Errors
///
/// Those of `encode`.
pub fn encode_ref(message: &MessageRef<'_>, out: &mut Vec<u8>) -> Result<(), EncodeError>
    requires { fits_fields (body_of message.now.body) ≡ true }
    ensures ok { OnOk result (out.new.items ≡ out.old.items ++ written (message_of message.now)) }
    ensures short { OnOk result (length (written (message_of message.now)) ≤ most_bytes) }
    ensures spelled { OnOk result (Spelled (sent (message_of message.now)) (written (message_of message.now))) }
    ensures error { IfErr result (λ error. IsTooLong error (message_of message.now)) }
    ensures kept { OnErr result (out.new.items ≡ out.old.items) }
    ensures room { IfErr result (λ error. LackedRoom error (vec_len out.old + length (written (message_of message.now))) (vec_capacity out.old)) }
    ensures capacity { vec_capacity out.old ≤ vec_capacity out.new }
{
    let len = message.encoded_len();
    if len > MOST_BYTES {
        return Err(EncodeError::TooLong(len));
    }
    if out.reserve(len as usize).is_err() {
        return Err(EncodeError::NoMemory);
    }
    append_header(lent_kind(&message.body), len as u16, message.xid, out);
    append_lent_body(&message.body, out);
    Ok(())
}

fn kind_of(body: &Body) -> u8
    ensures { result ≡ type_of body.now }
{
    match body {
        Body::Hello { .. } => HELLO,
        Body::Error { .. } => ERROR,
        Body::EchoRequest(_) => ECHO_REQUEST,
        Body::EchoReply(_) => ECHO_REPLY,
        Body::FeaturesRequest => FEATURES_REQUEST,
        Body::FeaturesReply { .. } => FEATURES_REPLY,
        Body::SetConfig { .. } => SET_CONFIG,
        Body::PacketIn { .. } => PACKET_IN,
        Body::FlowRemoved { .. } => FLOW_REMOVED,
        Body::PortStatus { .. } => PORT_STATUS,
        Body::PacketOut { .. } => PACKET_OUT,
        Body::FlowMod { .. } => FLOW_MOD,
        Body::BarrierRequest => BARRIER_REQUEST,
        Body::BarrierReply => BARRIER_REPLY,
        Body::Other { kind } => *kind,
    }
}

fn lent_kind(body: &BodyRef<'_>) -> u8
    ensures { result ≡ type_of (body_of body.now) }
{
    match *body {
        BodyRef::Hello { .. } => HELLO,
        BodyRef::Error { .. } => ERROR,
        BodyRef::EchoRequest(_) => ECHO_REQUEST,
        BodyRef::EchoReply(_) => ECHO_REPLY,
        BodyRef::FeaturesRequest => FEATURES_REQUEST,
        BodyRef::FeaturesReply { .. } => FEATURES_REPLY,
        BodyRef::SetConfig { .. } => SET_CONFIG,
        BodyRef::PacketIn { .. } => PACKET_IN,
        BodyRef::FlowRemoved { .. } => FLOW_REMOVED,
        BodyRef::PortStatus { .. } => PORT_STATUS,
        BodyRef::PacketOut { .. } => PACKET_OUT,
        BodyRef::FlowMod { .. } => FLOW_MOD,
        BodyRef::BarrierRequest => BARRIER_REQUEST,
        BodyRef::BarrierReply => BARRIER_REPLY,
        BodyRef::Other { kind } => kind,
    }
}

// OpenFlow 1.0, 5.1, ofp_header.
fn append_header(kind: u8, len: u16, xid: u32, out: &mut Vec<u8>)
    requires { vec_len out.old + 8 ≤ vec_capacity out.old }
    ensures items { out.new.items ≡ out.old.items ++ (number 1 1 ++ number 1 kind ++ number 2 len ++ number 4 xid) }
    ensures len { vec_len out.new ≡ vec_len out.old + 8 }
    ensures capacity { vec_capacity out.old ≤ vec_capacity out.new }
    ensures bits { has_bits 32 xid ≡ true }
{
    append_u8(VERSION, out);
    append_u8(kind, out);
    append_u16(len, out);
    append_u32(xid, out);
}

/// The 40 bytes of a match (OpenFlow 1.0, 5.2.3). Its Ethernet addresses are below 2^48.
pub fn match_bytes(of: &Match) -> [u8; 40]
    requires { match_fits_fields of.now ≡ true }
    ensures { result ≡ written_match of.now }
{
    bytes_of(of)
}
