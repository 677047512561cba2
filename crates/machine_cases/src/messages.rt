// Messages as bytes: how they are read, and how those of an outbox are told.
ghost use Rattle.std.specs.Prelude.{IfOk};
ghost use Rattle.switch_session.specs.Calls.{CanBeHeard};

use case_text::{CaseStop, push_hex};
use of10_codec::{DecodeError, Message, decode};
use std::alloc::{AllocError, Global};

/// The message that bytes spell.
pub fn message_of(alloc: Global, bytes: &[u8]) -> Result<Message, CaseStop>
    ensures { IfOk result (λ message. CanBeHeard message) }
{
    match decode(alloc, bytes) {
        Ok(message) => Ok(message),
        Err(DecodeError::Bad(_)) => Err(CaseStop::Unread),
        Err(DecodeError::NoMemory) => Err(CaseStop::NoMemory),
    }
}

/// Appends the bytes of an outbox, or `nothing`.
pub fn push_bytes(bytes: &[u8], out: &mut String) -> Result<(), AllocError> {
    if bytes.is_empty() {
        return out.push_str("nothing");
    }
    push_hex(bytes, out)
}

/// Appends the type, the number and the length of each message of an outbox, or `nothing`.
pub fn push_list(bytes: &[u8], out: &mut String) -> Result<(), AllocError> {
    if bytes.is_empty() {
        return out.push_str("nothing");
    }
    let mut rest = bytes;
    while rest.len() >= 8 {
        let len = (rest[2] as usize * 256 + rest[3] as usize).clamp(8, rest.len());
        write!(out, "{} {} {len},", rest[1], rest[7])?;
        rest = &rest[len..];
    }
    Ok(())
}

/// Appends bytes that were sent behind a blank; nothing, where there are none.
pub fn push_sent(bytes: &[u8], out: &mut String) -> Result<(), AllocError> {
    if bytes.is_empty() {
        return Ok(());
    }
    out.push_str(" ")?;
    push_hex(bytes, out)
}
