// Replies to packets, and to what answers them, as text.
use case_values::{push_cell, push_decision, push_key, push_value};
use machine_steps::{Differs, Reply};
use std::alloc::AllocError;

/// Appends the reply to a packet, or to what answers one.
pub fn push_packet_reply(reply: &Reply, out: &mut String) -> Result<(), AllocError> {
    match reply {
        Reply::Job(item) => {
            write!(out, "job {} s{} ", item.job(), item.switch())?;
            push_key(item.key(), out)
        }
        Reply::Malformed(kind) => write!(out, "malformed {kind}"),
        Reply::TooBig(bytes) => write!(out, "toobig {bytes}"),
        Reply::Overload => out.push_str("overload"),
        Reply::Answered { decision, learnt } => {
            out.push_str("answered ")?;
            push_decision(decision, out)?;
            write!(out, " {learnt:?}")
        }
        Reply::Spent => out.push_str("spent"),
        Reply::NotOpen => out.push_str("notopen"),
        Reply::Stale(differs) => push_difference(*differs, out),
        _ => out.push_str("another reply"),
    }
}

// What isn't so any more: what was recorded, and what is now.
fn push_difference(differs: Differs, out: &mut String) -> Result<(), AllocError> {
    match differs {
        Differs::OfPolicy { recorded, current } => {
            write!(out, "stale policy: {recorded}, {current}")
        }
        Differs::OfCell {
            cell,
            recorded,
            current,
        } => {
            out.push_str("stale ")?;
            push_cell(cell, out)?;
            out.push_str(": ")?;
            push_value(recorded, out)?;
            out.push_str(", ")?;
            push_value(current, out)
        }
    }
}
