// Packets that a connection brings: `packet C P FIELDS` and `frame C P HEX` are as in scripts. Ahead of these may
// stand `kept B`, for a packet that the switch keeps in this buffer, and behind that `padded N`, for one that zeros fill
// up to so many bytes.
ghost use Rattle.std.specs.Prelude.{IfOk};
ghost use Rattle.machine_cases.specs.Entries.{IsPlain};

use crate::connection_entries::heard;
use case_text::{CaseStop, Words};
use machine_steps::Entry;
use maple_base::openflow::NO_BUFFER;
use script_text::{Command, PacketSpec, frame_of, read_line};
use std::alloc::Global;

/// A packet at a port of the switch of a connection.
#[derive(Drop)]
pub struct Arrival {
    /// The connection's number.
    pub connection: u32,
    /// The port.
    pub port: u16,
    /// The packet.
    pub frame: Vec<u8>,
}

/// The entry of such a call.
pub fn packet_entry(alloc: Global, call: Words<'_>) -> Result<Entry, CaseStop>
    ensures { IfOk result (λ entry. IsPlain entry) }
{
    let (buffer, behind) = ahead("kept", NO_BUFFER, call)?;
    let (len, packet) = ahead("padded", 0, behind)?;
    let arrival = padded_arrival(alloc, packet, len as usize)?;
    let bytes = packet_in(alloc, buffer, arrival.port, &arrival.frame)?;
    heard(alloc, arrival.connection, &bytes)
}

// The number behind this word, or the usual one where the word isn't there; and the words behind both.
fn ahead<'a>(word: &str, usual: u32, call: Words<'a>) -> Result<(u32, Words<'a>), CaseStop> {
    let mut words = call;
    if words.word() != word {
        return Ok((usual, call));
    }
    let number = words.number_u32()?;
    Ok((number, words))
}

fn padded_arrival(alloc: Global, packet: Words<'_>, len: usize) -> Result<Arrival, CaseStop> {
    let mut arrival = arrival_of(alloc, packet.rest())?;
    if arrival.frame.len() < len {
        arrival.frame.resize(len, 0)?;
    }
    Ok(arrival)
}

/// The packet of a packet line or a frame line.
pub fn arrival_of(alloc: Global, line: &str) -> Result<Arrival, CaseStop> {
    match read_line(alloc, line.as_bytes()) {
        Ok(Command::Packet(connection, spec)) => of_fields(alloc, connection, &spec),
        Ok(Command::Frame(connection, port, bytes)) => Ok(Arrival {
            connection: u32::try_from(connection)?,
            port,
            frame: Vec::from_slice(alloc, bytes.items())?,
        }),
        _ => Err(CaseStop::Unread),
    }
}

fn of_fields(alloc: Global, connection: u64, spec: &PacketSpec) -> Result<Arrival, CaseStop> {
    let mut frame = Vec::new(alloc);
    frame_of(spec, &mut frame)?;
    Ok(Arrival {
        connection: u32::try_from(connection)?,
        port: spec.key().in_port,
        frame,
    })
}

// A PACKET_IN (OpenFlow 1.0, 5.4.1) of a packet that came whole.
fn packet_in(alloc: Global, buffer: u32, port: u16, frame: &[u8]) -> Result<Vec<u8>, CaseStop> {
    let total = u16::try_from(frame.len())?;
    let len = total.checked_add(18).ok_or(CaseStop::Unread)?;
    let mut bytes = Vec::new(alloc);
    bytes.extend_from_slice(&[1, 10])?;
    bytes.extend_from_slice(&len.to_be_bytes())?;
    bytes.extend_from_slice(&[0, 0, 0, 0])?;
    bytes.extend_from_slice(&buffer.to_be_bytes())?;
    bytes.extend_from_slice(&total.to_be_bytes())?;
    bytes.extend_from_slice(&port.to_be_bytes())?;
    bytes.extend_from_slice(&[0, 0])?;
    bytes.extend_from_slice(frame)?;
    Ok(bytes)
}
