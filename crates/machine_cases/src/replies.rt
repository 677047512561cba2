// Replies of the machine as text.
use crate::messages::{push_bytes, push_list};
use crate::packet_replies::push_packet_reply;
use case_text::{CaseStop, push_text};
use case_values::push_value;
use machine_steps::Reply;
use policy_lang::Policy;
use policy_text::print_policy;
use std::alloc::{AllocError, Global};

/// Appends a reply. Bytes are told whole, or where `listed` by the messages that they are.
pub fn push_reply(
    alloc: Global,
    reply: &Reply,
    listed: bool,
    out: &mut String,
) -> Result<(), CaseStop> {
    match reply {
        Reply::Out(bytes) if listed => Ok(push_list(bytes.items(), out)?),
        Reply::Out(bytes) => Ok(push_bytes(bytes.items(), out)?),
        Reply::Policy(number, policy) => push_policy(alloc, *number, policy, out),
        Reply::Lines(_) => Err(CaseStop::Unread),
        Reply::NoMemory => Err(CaseStop::NoMemory),
        other => Ok(push_short_reply(other, out)?),
    }
}

// The reply to what happens to connections and in the network, or to a packet.
fn push_short_reply(reply: &Reply, out: &mut String) -> Result<(), AllocError> {
    match reply {
        Reply::Done => out.push_str("ok"),
        Reply::Ended(end) => write!(out, "ended {end:?}"),
        Reply::NewState { state, pruned } => write!(out, "new {state} {pruned}"),
        Reply::UpdateRefused(refused) => write!(out, "refused {refused:?}"),
        Reply::Value(value) => push_value(*value, out),
        Reply::Count(count) => write!(out, "count {count}"),
        of_packet => push_packet_reply(of_packet, out),
    }
}

// The number of a policy, and its printed form in one line.
fn push_policy(
    alloc: Global,
    number: u64,
    policy: &Policy,
    out: &mut String,
) -> Result<(), CaseStop> {
    let mut printed = Vec::new(alloc);
    print_policy(policy, &mut printed)?;
    write!(out, "policy {number}")?;
    for word in printed.split(|byte| *byte == b' ' || *byte == b'\n') {
        if !word.is_empty() {
            out.push(' ')?;
            push_text(word, out)?;
        }
    }
    Ok(())
}

/// Appends the lines of a report: the first one behind ` ; `, each further one behind ` / `.
pub fn push_lines(report: &[u8], out: &mut String) -> Result<(), CaseStop> {
    let Some(lines) = report.strip_suffix(b"\n") else {
        return if report.is_empty() {
            Ok(())
        } else {
            Err(CaseStop::Unread)
        };
    };
    let mut is_first = true;
    for line in lines.split(|byte| *byte == b'\n') {
        out.push_str(if is_first { " ; " } else { " / " })?;
        push_text(line, out)?;
        is_first = false;
    }
    Ok(())
}
