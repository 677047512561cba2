// Messages as they are written behind a byte 7.
ghost use Rattle.std.specs.Prelude.{◌≡◌, true, IsTrue};
ghost use Rattle.of10_codec.specs.Lent.{body_of};
ghost use Rattle.of10_codec.specs.Written.{is_address, match_fits_fields, fits_fields};

use case_text::{CaseStop, push_hex};
use maple_base::Match;
use of10_codec::{BodyRef, EncodeError, MessageRef, encode, encode_ref};
use std::alloc::{AllocError, Global};

/// How a message is written: with lent bytes or its own, with room for just its bytes or none.
#[derive(Clone, Copy)]
pub enum Form {
    Lent,
    Own,
    Grown,
}

/// How messages are written, and their transaction id.
#[derive(Clone, Copy)]
pub struct Writing {
    pub alloc: Global,
    pub form: Form,
    pub xid: u32,
}

/// Appends what is written of a message.
pub fn push_written(
    to: Writing,
    message: &MessageRef<'_>,
    out: &mut String,
) -> Result<(), CaseStop> {
    match to.form {
        Form::Lent => push_lent(to.alloc, message, out),
        Form::Own => push_own(to.alloc, message, true, out),
        Form::Grown => push_own(to.alloc, message, false, out),
    }
}

fn is_address(fixed: Option<u64>) -> bool
    ensures { result ≡ is_address fixed }
{
    match fixed {
        None => true,
        Some(address) => address < 1 << 48,
    }
}

/// Whether the Ethernet addresses of a match have 48 bits.
pub fn match_fits(of: &Match) -> bool
    ensures { result ≡ match_fits_fields of.now }
{
    is_address(of.dl_src) && is_address(of.dl_dst)
}

// Whether a body may be written; not told of one of another type.
fn may_be_written(body: &BodyRef<'_>) -> bool
    ensures { IsTrue result → fits_fields (body_of body.now) ≡ true }
{
    match *body {
        BodyRef::FlowRemoved { of, .. } => match_fits(&of),
        BodyRef::FlowMod { of, .. } => match_fits(&of),
        BodyRef::PortStatus { reason, .. } => reason <= 2,
        BodyRef::Other { kind } => kind == 16,
        _ => true,
    }
}

// A byte 7, with room for so many behind it.
fn seven(alloc: Global, len: u128) -> Result<Vec<u8>, CaseStop> {
    let room = usize::try_from(len)?;
    let mut out = Vec::with_capacity(alloc, room.saturating_add(1))?;
    out.push(7)?;
    Ok(out)
}

fn push_lent(alloc: Global, message: &MessageRef<'_>, out: &mut String) -> Result<(), CaseStop> {
    if !may_be_written(&message.body) {
        return Err(CaseStop::Unread);
    }
    let mut bytes = seven(alloc, message.encoded_len())?;
    let answer = encode_ref(message, &mut bytes);
    push_answer(answer, &bytes, true, out)
}

fn push_own(
    alloc: Global,
    message: &MessageRef<'_>,
    has_room: bool,
    out: &mut String,
) -> Result<(), CaseStop> {
    if !may_be_written(&message.body) {
        return Err(CaseStop::Unread);
    }
    let own = message.to_message(alloc)?;
    let room = if has_room { own.encoded_len() } else { 0 };
    let mut bytes = seven(alloc, room)?;
    let answer = encode(&own, &mut bytes);
    push_answer(answer, &bytes, has_room, out)
}

// What was answered, and what stands then: all bytes where just these had room.
fn push_answer(
    answer: Result<(), EncodeError>,
    bytes: &Vec<u8>,
    had_room: bool,
    out: &mut String,
) -> Result<(), CaseStop> {
    match answer {
        Ok(()) if had_room => push_room(bytes, out)?,
        Ok(()) => {}
        Err(EncodeError::TooLong(len)) => write!(out, "TooLong {len}, ")?,
        Err(EncodeError::NoMemory) => return Err(CaseStop::NoMemory),
    }
    Ok(push_bytes(bytes, out)?)
}

// Whether there is other room than for just the bytes.
fn push_room(bytes: &Vec<u8>, out: &mut String) -> Result<(), AllocError> {
    if bytes.capacity() != bytes.len() {
        write!(out, "room for {}, ", bytes.capacity())?;
    }
    Ok(())
}

// All bytes, or how many, the first nine, and how many of the others are 1.
fn push_bytes(bytes: &[u8], out: &mut String) -> Result<(), AllocError> {
    match bytes.split_at_checked(9) {
        Some((front, rest)) if rest.len() > 1000 => {
            write!(out, "{} bytes, ", bytes.len())?;
            push_hex(front, out)?;
            write!(out, ".., {} of 1", ones(rest))
        }
        _ => push_hex(bytes, out),
    }
}

fn ones(bytes: &[u8]) -> u32 {
    let mut count = 0u32;
    for byte in bytes {
        if *byte == 1 {
            count = count.saturating_add(1);
        }
    }
    count
}
