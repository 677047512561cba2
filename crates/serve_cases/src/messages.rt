// Messages of a switch, each in a piece.
use case_text::{CaseStop, Words};
use maple_io::Piece;
use std::alloc::Global;

/// HELLO, with the number 0.
pub fn hello(alloc: Global) -> Result<Piece, CaseStop> {
    spelled(alloc, "0100000800000000")
}

/// DPID: FEATURES_REPLY of a switch without ports, with the number 0.
pub fn features(alloc: Global, dpid: u64) -> Result<Piece, CaseStop> {
    let mut digits = String::new(alloc);
    write!(digits, "0106002000000000{dpid:016x}")?;
    digits.push_str("00000000000000000000000000000000")?;
    spelled(alloc, digits.as_str())
}

/// BARRIER_REPLY with this number.
pub fn barrier(alloc: Global, number: u32) -> Result<Piece, CaseStop> {
    let mut digits = String::new(alloc);
    write!(digits, "01130008{number:08x}")?;
    spelled(alloc, digits.as_str())
}

/// PACKET_IN of a frame that came in by this port, which is all in the message.
pub fn packet(alloc: Global, port: u16, frame: &[u8]) -> Result<Piece, CaseStop> {
    let total = u16::try_from(frame.len())?;
    let length = total.checked_add(18).ok_or(CaseStop::Unread)?;
    let mut digits = String::new(alloc);
    write!(
        digits,
        "010a{length:04x}00000000ffffffff{total:04x}{port:04x}0000"
    )?;
    let mut bytes = Words::new(digits.as_str()).bytes(alloc)?;
    bytes.extend_from_slice(frame)?;
    Ok(Piece::new(bytes))
}

/// These bytes, so many times over.
pub fn repeated(alloc: Global, count: u64, bytes: &[u8]) -> Result<Piece, CaseStop> {
    let mut all = Vec::new(alloc);
    for _ in 0..count {
        all.extend_from_slice(bytes)?;
    }
    Ok(Piece::new(all))
}

/// The piece that pairs of hexadecimal digits spell.
pub fn spelled(alloc: Global, digits: &str) -> Result<Piece, CaseStop> {
    Ok(Piece::new(Words::new(digits).bytes(alloc)?))
}
