// Numbers in words, and the parts of a text.
use case_text::push_text;
use maple_text::{Numeral, cut};
use std::alloc::AllocError;

/// Appends a number, or `none`.
pub fn push_number(number: Option<u64>, out: &mut String) -> Result<(), AllocError> {
    match number {
        Some(number) => write!(out, "{number}"),
        None => out.push_str("none"),
    }
}

/// Appends what a numeral is, or `none`.
pub fn push_numeral(numeral: Option<Numeral>, out: &mut String) -> Result<(), AllocError> {
    match numeral {
        Some(Numeral::Number(number)) => write!(out, "Number {number}"),
        Some(Numeral::TooGreat) => out.push_str("TooGreat"),
        None => out.push_str("none"),
    }
}

/// Appends the part up to a blank in brackets, and what is behind the blank in others.
pub fn push_cut(text: &[u8], out: &mut String) -> Result<(), AllocError> {
    let (part, rest) = cut(b' ', text);
    push_part(part, out)?;
    match rest {
        Some(rest) => push_part(rest, out),
        None => Ok(()),
    }
}

fn push_part(part: &[u8], out: &mut String) -> Result<(), AllocError> {
    out.push_str("[")?;
    push_text(part, out)?;
    out.push_str("]")
}
