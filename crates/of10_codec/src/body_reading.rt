// Reading what a message says.
ghost use Rattle.std.specs.Prelude.{◌≡◌, ◌≢◌, ◌≤◌, length, IfOk, IfErr, OnOk, OnErr};
ghost use Rattle.of10_codec.specs.Reading.{IsFaulty, ReadsBody};
ghost use Rattle.of10_codec.specs.Types.{error_type, features_reply_type, set_config_type, packet_in_type, flow_removed_type, port_status_type, packet_out_type, flow_mod_type};

use crate::BodyRef;
use crate::action_reading::{OUTPUT_LEN, read_actions};
use crate::header::{
    BARRIER_REPLY, BARRIER_REQUEST, ECHO_REPLY, ECHO_REQUEST, ERROR, FEATURES_REPLY,
    FEATURES_REQUEST, FLOW_MOD, FLOW_REMOVED, HEADER_LEN, HELLO, PACKET_IN, PACKET_OUT,
    PORT_STATUS, SET_CONFIG,
};
use crate::match_reading::read_match;
use crate::number::{u8_at, u16_at, u32_at, u64_at};
use crate::port_reading::{PORT_LEN, read_port};
use maple_base::openflow::PORT_MODIFIED;

// The offsets of fields that may be faulty: the length in the header, which is blamed where it does
// not suit the type, a match, the reason of a port status, and the length of a packet's actions.
const LENGTH: u16 = 2;

const MATCH: u16 = 8;

const REASON: u16 = 8;

const ACTIONS_LEN: u16 = 14;

/// The body of a message of a type, or the offset of its first faulty field.
pub fn read_body(kind: u8, bytes: &[u8]) -> Result<BodyRef<'_>, u16>
    requires { 8 ≤ length bytes.now }
    ensures found { IfOk result (λ body. ReadsBody kind body bytes.now) }
    ensures fault { IfErr result (λ offset. IsFaulty kind offset bytes.now) }
{
    match kind {
        HELLO => Ok(BodyRef::Hello {
            version: u8_at(bytes, 0),
        }),
        ERROR => read_error(bytes),
        ECHO_REQUEST => Ok(BodyRef::EchoRequest(&bytes[HEADER_LEN..])),
        ECHO_REPLY => Ok(BodyRef::EchoReply(&bytes[HEADER_LEN..])),
        FEATURES_REQUEST => {
            expect_empty(bytes)?;
            Ok(BodyRef::FeaturesRequest)
        }
        FEATURES_REPLY => read_features(bytes),
        SET_CONFIG => read_config(bytes),
        PACKET_IN => read_packet_in(bytes),
        FLOW_REMOVED => read_flow_removed(bytes),
        PORT_STATUS => read_port_status(bytes),
        PACKET_OUT => read_packet_out(bytes),
        FLOW_MOD => read_flow_mod(bytes),
        BARRIER_REQUEST => {
            expect_empty(bytes)?;
            Ok(BodyRef::BarrierRequest)
        }
        BARRIER_REPLY => {
            expect_empty(bytes)?;
            Ok(BodyRef::BarrierReply)
        }
        _ => Ok(BodyRef::Other { kind }),
    }
}

// nothing stands behind the header
fn expect_empty(bytes: &[u8]) -> Result<(), u16>
    ensures empty { OnOk result (length bytes.now ≡ 8) }
    ensures longer { OnErr result (length bytes.now ≢ 8) }
    ensures fault { IfErr result (λ offset. offset ≡ 2) }
{
    if bytes.len() != HEADER_LEN {
        return Err(LENGTH);
    }
    Ok(())
}

fn read_error(bytes: &[u8]) -> Result<BodyRef<'_>, u16>
    ensures found { IfOk result (λ body. ReadsBody error_type body bytes.now) }
    ensures fault { IfErr result (λ offset. IsFaulty error_type offset bytes.now) }
{
    if bytes.len() < 12 {
        return Err(LENGTH);
    }
    Ok(BodyRef::Error {
        kind: u16_at(bytes, 8),
        code: u16_at(bytes, 10),
        bytes: &bytes[12..],
    })
}

fn read_features(bytes: &[u8]) -> Result<BodyRef<'_>, u16>
    ensures found { IfOk result (λ body. ReadsBody features_reply_type body bytes.now) }
    ensures fault { IfErr result (λ offset. IsFaulty features_reply_type offset bytes.now) }
{
    if bytes.len() < 32 || (bytes.len() - 32) % PORT_LEN != 0 {
        return Err(LENGTH);
    }
    Ok(BodyRef::FeaturesReply {
        dpid: u64_at(bytes, 8),
        ports: &bytes[32..],
    })
}

fn read_config(bytes: &[u8]) -> Result<BodyRef<'_>, u16>
    ensures found { IfOk result (λ body. ReadsBody set_config_type body bytes.now) }
    ensures fault { IfErr result (λ offset. IsFaulty set_config_type offset bytes.now) }
{
    if bytes.len() != 12 {
        return Err(LENGTH);
    }
    Ok(BodyRef::SetConfig {
        miss_send_len: u16_at(bytes, 10),
    })
}

fn read_packet_in(bytes: &[u8]) -> Result<BodyRef<'_>, u16>
    ensures found { IfOk result (λ body. ReadsBody packet_in_type body bytes.now) }
    ensures fault { IfErr result (λ offset. IsFaulty packet_in_type offset bytes.now) }
{
    if bytes.len() < 18 {
        return Err(LENGTH);
    }
    Ok(BodyRef::PacketIn {
        buffer: u32_at(bytes, 8),
        total: u16_at(bytes, 12),
        in_port: u16_at(bytes, 14),
        reason: u8_at(bytes, 16),
        bytes: &bytes[18..],
    })
}

fn read_flow_removed(bytes: &[u8]) -> Result<BodyRef<'_>, u16>
    ensures found { IfOk result (λ body. ReadsBody flow_removed_type body bytes.now) }
    ensures fault { IfErr result (λ offset. IsFaulty flow_removed_type offset bytes.now) }
{
    if bytes.len() != 88 {
        return Err(LENGTH);
    }
    let Some(of) = read_match(&bytes[8..]) else {
        return Err(MATCH);
    };
    Ok(BodyRef::FlowRemoved {
        of,
        cookie: u64_at(bytes, 48),
        priority: u16_at(bytes, 56),
        reason: u8_at(bytes, 58),
        idle: u16_at(bytes, 68),
    })
}

fn read_port_status(bytes: &[u8]) -> Result<BodyRef<'_>, u16>
    ensures found { IfOk result (λ body. ReadsBody port_status_type body bytes.now) }
    ensures fault { IfErr result (λ offset. IsFaulty port_status_type offset bytes.now) }
{
    if bytes.len() != 64 {
        return Err(LENGTH);
    }
    let reason = u8_at(bytes, 8);
    if reason > PORT_MODIFIED {
        return Err(REASON);
    }
    Ok(BodyRef::PortStatus {
        reason,
        port: read_port(&bytes[16..]),
    })
}

fn read_packet_out(bytes: &[u8]) -> Result<BodyRef<'_>, u16>
    ensures found { IfOk result (λ body. ReadsBody packet_out_type body bytes.now) }
    ensures fault { IfErr result (λ offset. IsFaulty packet_out_type offset bytes.now) }
{
    if bytes.len() < 16 {
        return Err(LENGTH);
    }
    let actions_len = usize::from(u16_at(bytes, 14));
    if actions_len % OUTPUT_LEN != 0 || bytes.len() < 16 + actions_len {
        return Err(ACTIONS_LEN);
    }
    let actions = read_actions(bytes, 16, actions_len / OUTPUT_LEN)?;
    Ok(BodyRef::PacketOut {
        buffer: u32_at(bytes, 8),
        in_port: u16_at(bytes, 12),
        actions,
        bytes: &bytes[16 + actions_len..],
    })
}

fn read_flow_mod(bytes: &[u8]) -> Result<BodyRef<'_>, u16>
    ensures found { IfOk result (λ body. ReadsBody flow_mod_type body bytes.now) }
    ensures fault { IfErr result (λ offset. IsFaulty flow_mod_type offset bytes.now) }
{
    if bytes.len() < 72 || (bytes.len() - 72) % OUTPUT_LEN != 0 {
        return Err(LENGTH);
    }
    let Some(of) = read_match(&bytes[8..]) else {
        return Err(MATCH);
    };
    let actions = read_actions(bytes, 72, (bytes.len() - 72) / OUTPUT_LEN)?;
    Ok(BodyRef::FlowMod {
        of,
        cookie: u64_at(bytes, 48),
        command: u16_at(bytes, 56),
        idle: u16_at(bytes, 58),
        hard: u16_at(bytes, 60),
        priority: u16_at(bytes, 62),
        buffer: u32_at(bytes, 64),
        out_port: u16_at(bytes, 68),
        flags: u16_at(bytes, 70),
        actions,
    })
}
