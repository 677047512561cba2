// Bytes in pairs of hexadecimal digits.
ghost use Rattle.std.specs.Prelude.{◌≡◌, true, IfOk};
ghost use Rattle.std.specs.List.{list_all};
ghost use Rattle.maple_text.specs.Numbers.{is_hex_digit};
ghost use Rattle.script_text.specs.Hexadecimal.{are_pairs, paired_bytes};

use maple_base::NoMemory;
use maple_text::{hex_worth, is_hex_digit};
use std::alloc::Global;

/// Whether a word has an even number of hexadecimal digits, at least two.
pub fn are_pairs(word: &[u8]) -> bool
    ensures { result ≡ are_pairs word.now }
{
    2 <= word.len() && word.len() % 2 == 0 && all_hex_digits(word)
}

fn all_hex_digits(word: &[u8]) -> bool
    ensures { result ≡ list_all is_hex_digit word.now }
{
    word.iter().all(|b| is_hex_digit(*b))
}

/// The bytes of pairs of digits.
pub fn paired_bytes(alloc: Global, digits: &[u8]) -> Result<Vec<u8>, NoMemory>
    requires { are_pairs digits.now ≡ true }
    ensures { IfOk result (λ bytes. bytes.items ≡ paired_bytes digits.now) }
{
    let mut bytes = Vec::with_capacity(alloc, digits.len() / 2)?;
    let mut rest = digits;
    while let [a, b, behind @ ..] = rest {
        bytes.push(16 * hex_worth(*a) + hex_worth(*b))?;
        rest = behind;
    }
    Ok(bytes)
}
