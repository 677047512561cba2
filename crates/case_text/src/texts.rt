// Texts of several lines and bytes, within one line.
use crate::CaseStop;
use std::alloc::{AllocError, Global};

/// Appends bytes in one line, a character each: `\n` stands for the end of a line, and `\\` for `\`.
pub fn push_text(bytes: &[u8], out: &mut String) -> Result<(), AllocError> {
    for byte in bytes {
        match *byte {
            b'\n' => out.push_str("\\n")?,
            b'\\' => out.push_str("\\\\")?,
            plain => out.push(char::from(plain))?,
        }
    }
    Ok(())
}

/// The text of a line, in which `\n` stands for the end of a line, and `\\` for `\`.
pub fn text_of(alloc: Global, line: &str) -> Result<String, CaseStop> {
    let mut text = String::new(alloc);
    let mut is_escaped = false;
    for part in line.chars() {
        match (is_escaped, part) {
            (false, '\\') => is_escaped = true,
            (false, _) => text.push(part)?,
            (true, 'n') => {
                text.push('\n')?;
                is_escaped = false;
            }
            (true, '\\') => {
                text.push('\\')?;
                is_escaped = false;
            }
            (true, _) => return Err(CaseStop::Unread),
        }
    }
    if is_escaped {
        Err(CaseStop::Unread)
    } else {
        Ok(text)
    }
}

/// Appends bytes as hexadecimal digits, two for each.
pub fn push_hex(bytes: &[u8], out: &mut String) -> Result<(), AllocError> {
    for byte in bytes {
        write!(out, "{byte:02x}")?;
    }
    Ok(())
}

/// The bytes that pairs of hexadecimal digits spell, with blanks between them as one likes.
pub fn bytes_of(alloc: Global, digits: &[u8]) -> Result<Vec<u8>, CaseStop> {
    let mut bytes = Vec::new(alloc);
    let mut high: Option<u8> = None;
    for byte in digits {
        if *byte == b' ' {
            continue;
        }
        let low = digit(*byte)?;
        match high {
            None => high = Some(low.wrapping_mul(16)),
            Some(first) => {
                bytes.push(first.wrapping_add(low))?;
                high = None;
            }
        }
    }
    if high.is_some() {
        Err(CaseStop::Unread)
    } else {
        Ok(bytes)
    }
}

fn digit(byte: u8) -> Result<u8, CaseStop> {
    match byte {
        b'0'..=b'9' => Ok(byte - b'0'),
        b'a'..=b'f' => Ok(byte - b'a' + 10),
        _ => Err(CaseStop::Unread),
    }
}
