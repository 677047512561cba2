// Writing what stands behind the header.
ghost use Rattle.std.specs.Prelude.{◌≡◌, ◌+◌, ◌*◌, ◌/◌, ◌≤◌, ◌++◌, true, length, vec_len, vec_capacity};
ghost use Rattle.of10_codec.specs.declared.message.Body.TheVariants.{Error, FeaturesReply, PacketIn, FlowRemoved, PortStatus, PacketOut};
ghost use Rattle.maple_base.specs.NetworkOrder.{number, zeros};
ghost use Rattle.of10_codec.specs.Lent.{body_of, all_ports};
ghost use Rattle.of10_codec.specs.Written.{written_body, flow_mod_front, flow_mod_rest};
ghost use Rattle.of10_codec.specs.Laws.{has_bits, body_has_bits, front_has_bits, rest_has_bits};

use super::append::{append_u8, append_u16, append_u32, append_u64};
use super::matches::bytes_of;
use super::outputs::append_actions;
use super::ports::{append_lent_ports, append_port, append_ports};
use crate::{Body, BodyRef};
use maple_base::{Actions, Match, Port, append};

// OpenFlow 1.0, 5.4.4, ofp_error_msg.
fn append_error(kind: u16, code: u16, bytes: &[u8], out: &mut Vec<u8>)
    requires { vec_len out.old + 4 + length bytes.now ≤ vec_capacity out.old }
    ensures items { out.new.items ≡ out.old.items ++ written_body (Error kind code bytes.now) }
    ensures bits { body_has_bits (Error kind code bytes.now) ≡ true }
    ensures capacity { vec_capacity out.old ≤ vec_capacity out.new }
{
    append_u16(kind, out);
    append_u16(code, out);
    append(bytes, out);
}

// OpenFlow 1.0, 5.3.1, ofp_switch_features, up to the ports.
fn append_features_front(dpid: u64, out: &mut Vec<u8>)
    requires { vec_len out.old + 24 ≤ vec_capacity out.old }
    ensures items { out.new.items ≡ out.old.items ++ (number 8 dpid ++ zeros 16) }
    ensures len { vec_len out.new ≡ vec_len out.old + 24 }
    ensures capacity { vec_capacity out.old ≤ vec_capacity out.new }
    ensures bits { has_bits 64 dpid ≡ true }
{
    append_u64(dpid, out);
    append(&[0; 16], out);
}

fn append_features(dpid: u64, ports: &[Port], out: &mut Vec<u8>)
    requires { vec_len out.old + 24 + 48 * length ports.now ≤ vec_capacity out.old }
    ensures items { out.new.items ≡ out.old.items ++ written_body (FeaturesReply dpid ports.now) }
    ensures bits { body_has_bits (FeaturesReply dpid ports.now) ≡ true }
    ensures capacity { vec_capacity out.old ≤ vec_capacity out.new }
{
    append_features_front(dpid, out);
    append_ports(ports, out);
}

fn append_lent_features(dpid: u64, ports: &[u8], out: &mut Vec<u8>)
    requires { vec_len out.old + 24 + 48 * (length ports.now / 48) ≤ vec_capacity out.old }
    ensures items { out.new.items ≡ out.old.items ++ written_body (FeaturesReply dpid (all_ports ports.now)) }
    ensures bits { body_has_bits (FeaturesReply dpid (all_ports ports.now)) ≡ true }
    ensures capacity { vec_capacity out.old ≤ vec_capacity out.new }
{
    append_features_front(dpid, out);
    append_lent_ports(ports, out);
}

// OpenFlow 1.0, 5.4.1, ofp_packet_in.
fn append_packet_in(
    buffer: u32,
    total: u16,
    in_port: u16,
    reason: u8,
    bytes: &[u8],
    out: &mut Vec<u8>,
)
    requires { vec_len out.old + 10 + length bytes.now ≤ vec_capacity out.old }
    ensures items { out.new.items ≡ out.old.items ++ written_body (PacketIn buffer total in_port reason bytes.now) }
    ensures bits { body_has_bits (PacketIn buffer total in_port reason bytes.now) ≡ true }
    ensures capacity { vec_capacity out.old ≤ vec_capacity out.new }
{
    append_u32(buffer, out);
    append_u16(total, out);
    append_u16(in_port, out);
    append_u8(reason, out);
    append_u8(0, out);
    append(bytes, out);
}

// OpenFlow 1.0, 5.4.2, ofp_flow_removed.
fn append_flow_removed(
    of: &Match,
    cookie: u64,
    priority: u16,
    reason: u8,
    idle: u16,
    out: &mut Vec<u8>,
)
    requires { vec_len out.old + 80 ≤ vec_capacity out.old }
    ensures items { out.new.items ≡ out.old.items ++ written_body (FlowRemoved of.now cookie priority reason idle) }
    ensures bits { body_has_bits (FlowRemoved of.now cookie priority reason idle) ≡ true }
    ensures capacity { vec_capacity out.old ≤ vec_capacity out.new }
{
    append(&bytes_of(of), out);
    append_u64(cookie, out);
    append_u16(priority, out);
    append_u8(reason, out);
    // A pad, and how long the rule was there.
    append(&[0; 9], out);
    append_u16(idle, out);
    // A pad, and how many packets and bytes the rule had.
    append(&[0; 18], out);
}

// OpenFlow 1.0, 5.4.3, ofp_port_status.
fn append_port_status(reason: u8, port: Port, out: &mut Vec<u8>)
    requires { vec_len out.old + 56 ≤ vec_capacity out.old }
    ensures items { out.new.items ≡ out.old.items ++ written_body (PortStatus reason port) }
    ensures bits { body_has_bits (PortStatus reason port) ≡ true }
    ensures capacity { vec_capacity out.old ≤ vec_capacity out.new }
{
    append_u8(reason, out);
    append(&[0; 7], out);
    append_port(port, out);
}

// OpenFlow 1.0, 5.3.6, ofp_packet_out.
fn append_packet_out(buffer: u32, in_port: u16, actions: Actions, bytes: &[u8], out: &mut Vec<u8>)
    requires { vec_len out.old + 8 + 8 * length actions + length bytes.now ≤ vec_capacity out.old }
    ensures items { out.new.items ≡ out.old.items ++ written_body (PacketOut buffer in_port actions bytes.now) }
    ensures bits { body_has_bits (PacketOut buffer in_port actions bytes.now) ≡ true }
    ensures capacity { vec_capacity out.old ≤ vec_capacity out.new }
{
    append_u32(buffer, out);
    append_u16(in_port, out);
    append_u16(8 * actions.items().len() as u16, out);
    append_actions(actions, out);
    append(bytes, out);
}

// OpenFlow 1.0, 5.3.3, ofp_flow_mod, up to the seconds after which the rule goes.
fn append_flow_mod_front(
    of: &Match,
    cookie: u64,
    command: u16,
    idle: u16,
    hard: u16,
    out: &mut Vec<u8>,
)
    requires { vec_len out.old + 54 ≤ vec_capacity out.old }
    ensures items { out.new.items ≡ out.old.items ++ flow_mod_front of.now cookie command idle hard }
    ensures len { vec_len out.new ≡ vec_len out.old + 54 }
    ensures capacity { vec_capacity out.old ≤ vec_capacity out.new }
    ensures bits { front_has_bits of.now cookie command idle hard ≡ true }
{
    append(&bytes_of(of), out);
    append_u64(cookie, out);
    append_u16(command, out);
    append_u16(idle, out);
    append_u16(hard, out);
}

// What is behind that.
fn append_flow_mod_rest(
    priority: u16,
    buffer: u32,
    out_port: u16,
    flags: u16,
    actions: Actions,
    out: &mut Vec<u8>,
)
    requires { vec_len out.old + 10 + 8 * length actions ≤ vec_capacity out.old }
    ensures items { out.new.items ≡ out.old.items ++ flow_mod_rest priority buffer out_port flags actions }
    ensures bits { rest_has_bits priority buffer out_port flags actions ≡ true }
    ensures capacity { vec_capacity out.old ≤ vec_capacity out.new }
{
    append_u16(priority, out);
    append_u32(buffer, out);
    append_u16(out_port, out);
    append_u16(flags, out);
    append_actions(actions, out);
}

pub(super) fn append_body(body: &Body, out: &mut Vec<u8>)
    requires { vec_len out.old + length (written_body body.now) ≤ vec_capacity out.old }
    ensures items { out.new.items ≡ out.old.items ++ written_body body.now }
    ensures bits { body_has_bits body.now ≡ true }
    ensures capacity { vec_capacity out.old ≤ vec_capacity out.new }
{
    match body {
        Body::Hello { version } => {
            let _version = *version;
        }
        Body::FeaturesRequest | Body::BarrierRequest | Body::BarrierReply => {}
        Body::Error { kind, code, bytes } => append_error(*kind, *code, bytes.items(), out),
        Body::EchoRequest(bytes) | Body::EchoReply(bytes) => append(bytes.items(), out),
        Body::FeaturesReply { dpid, ports } => append_features(*dpid, ports.items(), out),
        Body::SetConfig { miss_send_len } => {
            append_u16(0, out);
            append_u16(*miss_send_len, out);
        }
        Body::PacketIn {
            buffer,
            total,
            in_port,
            reason,
            bytes,
        } => {
            append_packet_in(*buffer, *total, *in_port, *reason, bytes.items(), out);
        }
        Body::FlowRemoved {
            of,
            cookie,
            priority,
            reason,
            idle,
        } => {
            append_flow_removed(of, *cookie, *priority, *reason, *idle, out);
        }
        Body::PortStatus { reason, port } => append_port_status(*reason, *port, out),
        Body::PacketOut {
            buffer,
            in_port,
            actions,
            bytes,
        } => {
            append_packet_out(*buffer, *in_port, *actions, bytes.items(), out);
        }
        Body::FlowMod {
            of,
            cookie,
            command,
            idle,
            hard,
            priority,
            buffer,
            out_port,
            flags,
            actions,
        } => {
            append_flow_mod_front(of, *cookie, *command, *idle, *hard, out);
            append_flow_mod_rest(*priority, *buffer, *out_port, *flags, *actions, out);
        }
        Body::Other { kind } => {
            let _kind = *kind;
        }
    }
}

// The same of a body that is lent.
pub(super) fn append_lent_body(body: &BodyRef<'_>, out: &mut Vec<u8>)
    requires { vec_len out.old + length (written_body (body_of body.now)) ≤ vec_capacity out.old }
    ensures items { out.new.items ≡ out.old.items ++ written_body (body_of body.now) }
    ensures bits { body_has_bits (body_of body.now) ≡ true }
    ensures capacity { vec_capacity out.old ≤ vec_capacity out.new }
{
    match *body {
        BodyRef::Hello { version } => {
            let _version = version;
        }
        BodyRef::FeaturesRequest | BodyRef::BarrierRequest | BodyRef::BarrierReply => {}
        BodyRef::Error { kind, code, bytes } => append_error(kind, code, bytes, out),
        BodyRef::EchoRequest(bytes) | BodyRef::EchoReply(bytes) => append(bytes, out),
        BodyRef::FeaturesReply { dpid, ports } => append_lent_features(dpid, ports, out),
        BodyRef::SetConfig { miss_send_len } => {
            append_u16(0, out);
            append_u16(miss_send_len, out);
        }
        BodyRef::PacketIn {
            buffer,
            total,
            in_port,
            reason,
            bytes,
        } => {
            append_packet_in(buffer, total, in_port, reason, bytes, out);
        }
        BodyRef::FlowRemoved {
            of,
            cookie,
            priority,
            reason,
            idle,
        } => {
            append_flow_removed(&of, cookie, priority, reason, idle, out);
        }
        BodyRef::PortStatus { reason, port } => append_port_status(reason, port, out),
        BodyRef::PacketOut {
            buffer,
            in_port,
            actions,
            bytes,
        } => {
            append_packet_out(buffer, in_port, actions, bytes, out);
        }
        BodyRef::FlowMod {
            of,
            cookie,
            command,
            idle,
            hard,
            priority,
            buffer,
            out_port,
            flags,
            actions,
        } => {
            append_flow_mod_front(&of, cookie, command, idle, hard, out);
            append_flow_mod_rest(priority, buffer, out_port, flags, actions, out);
        }
        BodyRef::Other { kind } => {
            let _kind = kind;
        }
    }
}
