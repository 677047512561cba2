// Reading messages.
ghost use Rattle.std.specs.Prelude.{◌≡◌, IfOk, IfErr, IsOk, Some, Ok};
ghost use Rattle.of10_codec.specs.declared.message.Message.{Message};
ghost use Rattle.of10_codec.specs.Lent.{message_of, Gives, GivesLent};
ghost use Rattle.of10_codec.specs.Messages.{Spelled};
ghost use Rattle.of10_codec.specs.Faults.{bad_of};
ghost use Rattle.of10_codec.specs.Answers.{IsFaultOf};

use crate::body_reading::read_body;
use crate::header::{Header, read_header};
use crate::{Bad, DecodeError, Message, MessageRef};
use maple_base::NoMemory;
use std::alloc::Global;

/// The message that the bytes spell, all of the bytes (OpenFlow 1.0, 5.1).
///
/// # Errors
///
/// The first fault of the bytes, where they spell none.
pub fn decode(alloc: Global, bytes: &[u8]) -> Result<Message, DecodeError>
    ensures found { IfOk result (λ message. Spelled message bytes.now) }
    ensures only { (message : Message) → Spelled message bytes.now → Gives result message }
    ensures fault { IfErr result (λ error. IsFaultOf error bytes.now) }
{
    match decode_ref(bytes) {
        Ok(lent) => match lent.to_message(alloc) {
            Ok(message) => Ok(message),
            Err(NoMemory) => Err(DecodeError::NoMemory),
        },
        Err(bad) => Err(DecodeError::Bad(bad)),
    }
}

/// As `decode`, with the bytes lent, and without memory.
///
/// # Errors
///
/// The first fault of the bytes, where they spell no message.
pub fn decode_ref(bytes: &[u8]) -> Result<MessageRef<'_>, Bad>
    ensures found { IfOk result (λ lent. Spelled (message_of lent) bytes.now) }
    ensures only { (message : Message) → Spelled message bytes.now → GivesLent result message }
    ensures fault { IfErr result (λ bad. bad_of bytes.now ≡ Some bad) }
{
    let Header { kind, xid } = read_header(bytes)?;
    match read_body(kind, bytes) {
        Ok(body) => Ok(MessageRef { xid, body }),
        Err(offset) => Err(Bad::Body { kind, offset }),
    }
}
