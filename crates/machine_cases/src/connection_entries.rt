// Entries of a connection.
ghost use Rattle.std.specs.Prelude.{IfOk};
ghost use Rattle.machine_steps.specs.Admitting.{IsHeard};
ghost use Rattle.machine_cases.specs.Entries.{IsPlain};

use crate::messages::message_of;
use case_text::{CaseStop, Words};
use machine_steps::{Entry, Input};
use of10_codec::Bad;
use std::alloc::Global;

// 16 bytes of 0.
const ZEROS: &[u8] = &[0, 0, 0, 0, 0, 0, 0, 0, 0, 0, 0, 0, 0, 0, 0, 0];

/// The entry of a connection that opens, brings no message, ends, or whose messages are taken: `open C`, `bad C PLACE FAULT`,
/// `gone C`, `fault C`, `take C`, `list C`.
pub fn connection_entry(call: Words<'_>) -> Result<Entry, CaseStop>
    ensures { IfOk result (λ entry. IsPlain entry) }
{
    let mut words = call;
    let verb = words.word();
    let connection = words.number_u32()?;
    match verb {
        "open" => Ok(Entry::Open(connection)),
        "gone" => Ok(Entry::Gone {
            connection,
            fault: false,
        }),
        "fault" => Ok(Entry::Gone {
            connection,
            fault: true,
        }),
        "bad" => of_no_message(connection, words),
        _ => Ok(Entry::TakeOut(connection)),
    }
}

fn of_no_message(connection: u32, mut words: Words<'_>) -> Result<Entry, CaseStop>
    ensures { IfOk result (λ entry. IsPlain entry) }
{
    let place = words.number()?;
    let bad = bad_of(words)?;
    Ok(Entry::Heard(connection, Input::Bad { place, bad }))
}

// `short`, `version`, `length`, or `body TYPE OFFSET`
fn bad_of(mut words: Words<'_>) -> Result<Bad, CaseStop> {
    match words.word() {
        "short" => Ok(Bad::Short),
        "version" => Ok(Bad::Version),
        "length" => Ok(Bad::Length),
        "body" => Ok(Bad::Body {
            kind: words.number_u8()?,
            offset: words.number_u16()?,
        }),
        _ => Err(CaseStop::Unread),
    }
}

/// `hear C BYTES`
pub fn of_bytes(alloc: Global, mut words: Words<'_>) -> Result<Entry, CaseStop>
    ensures { IfOk result (λ entry. IsPlain entry) }
{
    let connection = words.number_u32()?;
    let bytes = words.bytes(alloc)?;
    heard(alloc, connection, &bytes)
}

/// The entry of a connection that brings the message of these bytes.
pub fn heard(alloc: Global, connection: u32, bytes: &[u8]) -> Result<Entry, CaseStop>
    ensures { IfOk result (λ entry. IsPlain entry) }
{
    let message = message_of(alloc, bytes)?;
    Ok(Entry::Heard(connection, Input::Message(message)))
}

/// `features C SWITCH PORTS`: a FEATURES_REPLY with this number comes, of a switch whose ports are up. They count from 1 on.
pub fn of_features(alloc: Global, xid: u32, mut words: Words<'_>) -> Result<Entry, CaseStop>
    ensures { IfOk result (λ entry. IsPlain entry) }
{
    let connection = words.number_u32()?;
    let dpid = words.number()?;
    let ports = words.number_u16()?;
    let bytes = features(alloc, xid, dpid, ports)?;
    heard(alloc, connection, &bytes)
}

fn features(alloc: Global, xid: u32, dpid: u64, ports: u16) -> Result<Vec<u8>, CaseStop> {
    let len = u16::try_from(32 + 48 * u32::from(ports))?;
    let mut bytes = Vec::new(alloc);
    bytes.extend_from_slice(&[1, 6])?;
    bytes.extend_from_slice(&len.to_be_bytes())?;
    bytes.extend_from_slice(&xid.to_be_bytes())?;
    bytes.extend_from_slice(&dpid.to_be_bytes())?;
    bytes.extend_from_slice(ZEROS)?;
    for port in 1..=ports {
        bytes.extend_from_slice(&port.to_be_bytes())?;
        bytes.resize(bytes.len().saturating_add(46), 0)?;
    }
    Ok(bytes)
}
