// Texts behind which a number stands.
ghost use Rattle.std.specs.Prelude.{◌≡◌, ◌<◌, ◌++◌, OnOk, decimal};
ghost use Rattle.report_text.specs.Report.{◌&◌, digit, pair};

use itoa::Buffer;
use std::alloc::AllocError;

/// Appends a text and a number in decimal digits.
pub fn push_number(text: &mut Vec<u8>, head: &[u8], number: u64) -> Result<(), AllocError>
    ensures { OnOk result (text.new.items ≡ text.old.items ++ (head.now & decimal number)) }
{
    text.extend_from_slice(head)?;
    let mut buffer = Buffer::new();
    text.extend_from_slice(buffer.format(number).as_bytes())
}

/// Appends a text and the two digits of base 16 of a byte.
pub fn push_pair(text: &mut Vec<u8>, head: &[u8], byte: u8) -> Result<(), AllocError>
    ensures { OnOk result (text.new.items ≡ text.old.items ++ (head.now & pair byte)) }
{
    text.extend_from_slice(head)?;
    text.extend_from_slice(&[digit(byte / 16), digit(byte % 16)])
}

fn digit(worth: u8) -> u8
    requires { worth < 16 }
    ensures { result ≡ digit worth }
{
    if worth < 10 {
        b'0' + worth
    } else {
        b'a' - 10 + worth
    }
}
