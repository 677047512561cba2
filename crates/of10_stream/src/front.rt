// The message that stands first.
ghost use Rattle.std.specs.Prelude.{◌≡◌, ◌≤◌, IfOk, IfErr, MatchOption, length};
ghost use Rattle.of10_stream.specs.Cut.{IsOpen, IsBad, head_fault, told};
ghost use Rattle.of10_stream.specs.Front.{IsWhole};

use of10_codec::{Bad, HEADER_LEN, HELLO, VERSION};

/// How long the message is that the bytes begin with, once it is there as a whole.
///
/// # Errors
///
/// The fault of its header.
pub fn whole_len(rest: &[u8]) -> Result<Option<usize>, Bad>
    ensures found { IfOk result (λ found. MatchOption found (IsOpen rest.now) (λ len. IsWhole len rest.now)) }
    ensures fault { IfErr result (λ bad. IsBad bad rest.now) }
{
    if rest.len() < HEADER_LEN {
        return Ok(None);
    }
    if rest[1] != HELLO && rest[0] != VERSION {
        return Err(Bad::Version);
    }
    let len = usize::from(u16::from_be_bytes([rest[2], rest[3]]));
    if len < HEADER_LEN {
        return Err(Bad::Length);
    }
    if rest.len() < len {
        return Ok(None);
    }
    Ok(Some(len))
}
