// Messages as text.
use crate::spelling::push_tail;
use case_values::{push_actions, push_match};
use maple_base::Port;
use of10_codec::{Body, Message};
use std::alloc::AllocError;

/// Appends a message, behind its transaction id.
pub fn push_message(message: &Message, out: &mut String) -> Result<(), AllocError> {
    write!(out, "{} ", message.xid)?;
    match &message.body {
        Body::Hello { version } => write!(out, "hello {version}"),
        Body::FeaturesRequest => out.push_str("features_request"),
        Body::SetConfig { miss_send_len } => write!(out, "set_config {miss_send_len}"),
        Body::BarrierRequest => out.push_str("barrier_request"),
        Body::BarrierReply => out.push_str("barrier_reply"),
        Body::Other { kind } => write!(out, "other {kind}"),
        body => push_long_body(body, out),
    }
}

fn push_long_body(body: &Body, out: &mut String) -> Result<(), AllocError> {
    match body {
        Body::Error { kind, code, bytes } => {
            write!(out, "error {kind} {code}")?;
            push_tail(bytes.items(), out)
        }
        Body::EchoRequest(bytes) => {
            out.push_str("echo_request")?;
            push_tail(bytes.items(), out)
        }
        Body::EchoReply(bytes) => {
            out.push_str("echo_reply")?;
            push_tail(bytes.items(), out)
        }
        Body::FeaturesReply { dpid, ports } => {
            write!(out, "features_reply {dpid}")?;
            push_ports(ports.items(), out)
        }
        Body::PortStatus { reason, port } => {
            write!(out, "port_status {reason}")?;
            push_ports(&[*port], out)
        }
        _ => push_packet(body, out),
    }
}

fn push_ports(ports: &[Port], out: &mut String) -> Result<(), AllocError> {
    for port in ports {
        let state = if port.up { "up" } else { "down" };
        write!(out, " {}:{state}", port.number)?;
    }
    Ok(())
}

fn push_packet(body: &Body, out: &mut String) -> Result<(), AllocError> {
    match body {
        Body::PacketIn {
            buffer,
            total,
            in_port,
            reason,
            bytes,
        } => {
            write!(out, "packet_in {buffer} {total} {in_port} {reason}")?;
            push_tail(bytes.items(), out)
        }
        Body::PacketOut {
            buffer,
            in_port,
            actions,
            bytes,
        } => {
            write!(out, "packet_out {buffer} {in_port} ")?;
            push_actions(actions, out)?;
            push_tail(bytes.items(), out)
        }
        _ => push_rule(body, out),
    }
}

fn push_rule(body: &Body, out: &mut String) -> Result<(), AllocError> {
    match body {
        Body::FlowRemoved {
            of,
            cookie,
            priority,
            reason,
            idle,
        } => {
            out.push_str("flow_removed ")?;
            push_match(of, out)?;
            write!(out, " {cookie} {priority} {reason} {idle}")
        }
        Body::FlowMod {
            of,
            cookie,
            command,
            idle,
            hard,
            priority,
            buffer,
            out_port,
            flags,
            actions,
        } => {
            out.push_str("flow_mod ")?;
            push_match(of, out)?;
            write!(out, " {cookie} {command} {idle} {hard} {priority} ")?;
            write!(out, "{buffer} {out_port} {flags} ")?;
            push_actions(actions, out)
        }
        _ => out.push_str("another"),
    }
}
