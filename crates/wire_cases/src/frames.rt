// The keys of frames, and the frames of packet lines.
use case_text::{CaseStop, Words, push_hex};
use case_values::push_key;
use packet_key::key_of;
use script_text::{Command, PacketSpec, frame_of, read_line};
use std::alloc::{AllocError, Global};

/// key PORT BYTES: the key of a frame, or why it has none.
pub fn key(alloc: Global, mut call: Words<'_>, out: &mut String) -> Result<(), CaseStop> {
    let port = call.number_u16()?;
    Ok(push_key_of(port, &call.bytes(alloc)?, out)?)
}

fn push_key_of(port: u16, frame: &[u8], out: &mut String) -> Result<(), AllocError> {
    match key_of(port, frame) {
        Ok(key) => push_key(&key, out),
        Err(fault) => write!(out, "{fault:?}"),
    }
}

/// bytes LINE: a byte ee, and the frame of a packet line behind it.
pub fn bytes(alloc: Global, call: Words<'_>, out: &mut String) -> Result<(), CaseStop> {
    let (_, bytes) = frame(alloc, call.rest())?;
    Ok(push_hex(&bytes, out)?)
}

/// reread LINE: the key of the frame of a packet line, at the line's port.
pub fn reread(alloc: Global, call: Words<'_>, out: &mut String) -> Result<(), CaseStop> {
    let (port, bytes) = frame(alloc, call.rest())?;
    let frame = bytes.get(1..).ok_or(CaseStop::Unread)?;
    Ok(push_key_of(port, frame, out)?)
}

fn frame(alloc: Global, line: &str) -> Result<(u16, Vec<u8>), CaseStop> {
    let Ok(command) = read_line(alloc, line.as_bytes()) else {
        return Err(CaseStop::Unread);
    };
    match &command {
        Command::Packet(_, spec) => Ok((spec.key().in_port, behind_ee(alloc, spec)?)),
        _ => Err(CaseStop::Unread),
    }
}

fn behind_ee(alloc: Global, spec: &PacketSpec) -> Result<Vec<u8>, CaseStop> {
    let mut out = Vec::from_slice(alloc, &[0xee])?;
    frame_of(spec, &mut out)?;
    Ok(out)
}
