// The bodies of messages, of words and bytes.
use crate::writing::{Writing, push_written};
use case_text::{CaseStop, Words};
use case_values::{actions_of, match_of};
use maple_base::Port;
use of10_codec::{BodyRef, MessageRef};

/// Appends what is written of the body that words are, and the bytes behind them.
pub fn push_body(
    to: Writing,
    mut words: Words<'_>,
    bytes: &[u8],
    out: &mut String,
) -> Result<(), CaseStop> {
    match words.word() {
        "hello" => hello(to, words, out),
        "features_request" => push_written(
            to,
            &MessageRef {
                xid: to.xid,
                body: BodyRef::FeaturesRequest,
            },
            out,
        ),
        "set_config" => set_config(to, words, out),
        "barrier_request" => push_written(
            to,
            &MessageRef {
                xid: to.xid,
                body: BodyRef::BarrierRequest,
            },
            out,
        ),
        "barrier_reply" => push_written(
            to,
            &MessageRef {
                xid: to.xid,
                body: BodyRef::BarrierReply,
            },
            out,
        ),
        "other" => other(to, words, out),
        "port_status" => port_status(to, words, out),
        "flow_removed" => flow_removed(to, words, out),
        "flow_mod" => flow_mod(to, words, out),
        kind => with_bytes(to, kind, words, bytes, out),
    }
}

fn with_bytes(
    to: Writing,
    kind: &str,
    words: Words<'_>,
    bytes: &[u8],
    out: &mut String,
) -> Result<(), CaseStop> {
    match kind {
        "error" => error(to, words, bytes, out),
        "echo_request" => push_written(
            to,
            &MessageRef {
                xid: to.xid,
                body: BodyRef::EchoRequest(bytes),
            },
            out,
        ),
        "echo_reply" => push_written(
            to,
            &MessageRef {
                xid: to.xid,
                body: BodyRef::EchoReply(bytes),
            },
            out,
        ),
        "features_reply" => features_reply(to, words, bytes, out),
        "packet_in" => packet_in(to, words, bytes, out),
        "packet_out" => packet_out(to, words, bytes, out),
        _ => Err(CaseStop::Unread),
    }
}

fn hello(to: Writing, mut words: Words<'_>, out: &mut String) -> Result<(), CaseStop> {
    let version = words.number_u8()?;
    push_written(
        to,
        &MessageRef {
            xid: to.xid,
            body: BodyRef::Hello { version },
        },
        out,
    )
}

fn set_config(to: Writing, mut words: Words<'_>, out: &mut String) -> Result<(), CaseStop> {
    let miss_send_len = words.number_u16()?;
    push_written(
        to,
        &MessageRef {
            xid: to.xid,
            body: BodyRef::SetConfig { miss_send_len },
        },
        out,
    )
}

fn other(to: Writing, mut words: Words<'_>, out: &mut String) -> Result<(), CaseStop> {
    let kind = words.number_u8()?;
    push_written(
        to,
        &MessageRef {
            xid: to.xid,
            body: BodyRef::Other { kind },
        },
        out,
    )
}

fn port_status(to: Writing, mut words: Words<'_>, out: &mut String) -> Result<(), CaseStop> {
    let reason = words.number_u8()?;
    let number = words.number_u16()?;
    let up = words.flag()?;
    let port = Port { number, up };
    push_written(
        to,
        &MessageRef {
            xid: to.xid,
            body: BodyRef::PortStatus { reason, port },
        },
        out,
    )
}

fn flow_removed(to: Writing, mut words: Words<'_>, out: &mut String) -> Result<(), CaseStop> {
    let body = BodyRef::FlowRemoved {
        of: match_of(words.word())?,
        cookie: words.number()?,
        priority: words.number_u16()?,
        reason: words.number_u8()?,
        idle: words.number_u16()?,
    };
    push_written(to, &MessageRef { xid: to.xid, body }, out)
}

fn flow_mod(to: Writing, mut words: Words<'_>, out: &mut String) -> Result<(), CaseStop> {
    let body = BodyRef::FlowMod {
        of: match_of(words.word())?,
        cookie: words.number()?,
        command: words.number_u16()?,
        idle: words.number_u16()?,
        hard: words.number_u16()?,
        priority: words.number_u16()?,
        buffer: words.number_u32()?,
        out_port: words.number_u16()?,
        flags: words.number_u16()?,
        actions: actions_of(to.alloc, words.word())?,
    };
    push_written(to, &MessageRef { xid: to.xid, body }, out)
}

fn error(
    to: Writing,
    mut words: Words<'_>,
    bytes: &[u8],
    out: &mut String,
) -> Result<(), CaseStop> {
    let kind = words.number_u16()?;
    let code = words.number_u16()?;
    push_written(
        to,
        &MessageRef {
            xid: to.xid,
            body: BodyRef::Error { kind, code, bytes },
        },
        out,
    )
}

fn features_reply(
    to: Writing,
    mut words: Words<'_>,
    ports: &[u8],
    out: &mut String,
) -> Result<(), CaseStop> {
    let dpid = words.number()?;
    push_written(
        to,
        &MessageRef {
            xid: to.xid,
            body: BodyRef::FeaturesReply { dpid, ports },
        },
        out,
    )
}

fn packet_in(
    to: Writing,
    mut words: Words<'_>,
    bytes: &[u8],
    out: &mut String,
) -> Result<(), CaseStop> {
    let body = BodyRef::PacketIn {
        buffer: words.number_u32()?,
        total: words.number_u16()?,
        in_port: words.number_u16()?,
        reason: words.number_u8()?,
        bytes,
    };
    push_written(to, &MessageRef { xid: to.xid, body }, out)
}

fn packet_out(
    to: Writing,
    mut words: Words<'_>,
    bytes: &[u8],
    out: &mut String,
) -> Result<(), CaseStop> {
    let body = BodyRef::PacketOut {
        buffer: words.number_u32()?,
        in_port: words.number_u16()?,
        actions: actions_of(to.alloc, words.word())?,
        bytes,
    };
    push_written(to, &MessageRef { xid: to.xid, body }, out)
}
