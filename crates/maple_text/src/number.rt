// Numbers in text.
ghost use Rattle.std.specs.Prelude.{◌≡◌, ℕ, ◌+◌, ◌-◌, ◌*◌, ◌^◌, ◌<◌, ◌≤◌, ◌==◌, ◌∷◌, [], length, IsTrue, MatchOption};
ghost use Rattle.std.specs.Option.{SomeIff};
ghost use Rattle.std.specs.List.{list_all, slice_split};
ghost use Rattle.maple_text.specs.FixedParts.{AreFourParts, AreSixParts};
ghost use Rattle.maple_text.specs.Numbers.{number_of, is_digit, is_digits, digits_onto, is_hex_digit, hex_worth, hex_onto, are_hex_digits, is_hexadecimal, four_bytes, dotted, is_pair, paired, address_of, numeral_within, numeral_of, value_of};

use crate::parts::cut;

/// What a word that spells a number stands for.
#[derive(Clone, Copy, Debug, PartialEq, Eq)]
pub enum Numeral {
    /// This number.
    Number(u64),
    /// A number of 2^64 or more, or an address with a part past 255.
    TooGreat,
}

/// The number that a word spells: decimal digits, leading zeros allowed; `0x` and 1 to 16
/// hexadecimal digits; an IPv4 address in dots; or an Ethernet address, six pairs of hexadecimal
/// digits joined by colons. `None` exactly where the word is none of these.
pub fn numeral_of(word: &[u8]) -> Option<Numeral>
    ensures { result ≡ numeral_of word.now }
{
    if is_digits(word) {
        Some(decimal(word))
    } else if is_hexadecimal(word) {
        Some(Numeral::Number(hex_number(&word[2..])))
    } else {
        address_of(word)
    }
}

/// The number that a word spells, in any of the spellings of `numeral_of`. `None` exactly where
/// the word spells none, or one that is too great.
pub fn value_of(word: &[u8]) -> Option<u64>
    ensures { result ≡ value_of word.now }
{
    match numeral_of(word)? {
        Numeral::Number(number) => Some(number),
        Numeral::TooGreat => None,
    }
}

/// The number that a word spells in decimal digits: one digit or more, leading zeros allowed, no
/// sign. `None` exactly where the word has another byte, is empty, or its number is 2^64 or more.
pub fn number_of(word: &[u8]) -> Option<u64>
    ensures { result ≡ number_of word.now }
{
    if word.is_empty() {
        return None;
    }
    let mut number: u64 = 0;
    for byte in word {
        if !is_digit(*byte) {
            return None;
        }
        let Some(next) = with_digit(number, *byte) else {
            return None;
        };
        number = next;
    }
    Some(number)
}

fn with_digit(number: u64, digit: u8) -> Option<u64>
    requires { IsTrue (is_digit digit) }
    ensures { SomeIff result (10 * number + (digit - 48) < 2 ^ 64) (10 * number + (digit - 48)) }
{
    number.checked_mul(10)?.checked_add((digit - b'0') as u64)
}

fn is_digit(byte: u8) -> bool
    ensures { result ≡ is_digit byte }
{
    48 <= byte && byte < 58
}

fn is_digits(word: &[u8]) -> bool
    ensures { result ≡ is_digits word.now }
{
    0 < word.len() && all_digits(word)
}

fn all_digits(word: &[u8]) -> bool
    ensures { result ≡ list_all is_digit word.now }
{
    word.iter().all(|b| is_digit(*b))
}

fn decimal(word: &[u8]) -> Numeral
    requires { IsTrue (is_digits word.now) }
    ensures { result ≡ numeral_within (2 ^ 64) (digits_onto 0 word.now) }
{
    match number_of(word) {
        Some(number) => Numeral::Number(number),
        None => Numeral::TooGreat,
    }
}

fn is_hexadecimal(word: &[u8]) -> bool
    ensures { result ≡ is_hexadecimal word.now }
{
    match word {
        [first, second, digits @ ..] => {
            *first == b'0' && *second == b'x' && are_hex_digits(digits)
        }
        _ => false,
    }
}

fn are_hex_digits(word: &[u8]) -> bool
    ensures { result ≡ are_hex_digits word.now }
{
    0 < word.len() && word.len() <= 16 && all_hex_digits(word)
}

fn all_hex_digits(word: &[u8]) -> bool
    ensures { result ≡ list_all is_hex_digit word.now }
{
    word.iter().all(|b| is_hex_digit(*b))
}

// The number that digits of base 16 spell.
fn hex_number(digits: &[u8]) -> u64
    requires digits { IsTrue (list_all is_hex_digit digits.now) }
    requires few { length digits.now ≤ 16 }
    ensures { result ≡ hex_onto 0 digits.now }
{
    let mut number: u64 = 0;
    for digit in digits {
        number = 16 * number + hex_worth(*digit) as u64;
    }
    number
}

/// Whether a byte is a hexadecimal digit, of either case.
pub fn is_hex_digit(byte: u8) -> bool
    ensures { result ≡ is_hex_digit byte }
{
    is_digit(byte) || (97 <= byte && byte < 103) || (65 <= byte && byte < 71)
}

/// What a hexadecimal digit is worth.
pub fn hex_worth(digit: u8) -> u8
    requires { IsTrue (is_hex_digit digit) }
    ensures worth { result ≡ hex_worth digit }
    ensures below { result < 16 }
{
    if is_digit(digit) {
        digit - 48
    } else if 97 <= digit {
        digit - 87
    } else {
        digit - 55
    }
}

fn address_of(word: &[u8]) -> Option<Numeral>
    ensures { result ≡ address_of word.now }
{
    match dotted(word) {
        Some(numeral) => Some(numeral),
        None => paired(word),
    }
}

// An IPv4 address in dots.
fn dotted(word: &[u8]) -> Option<Numeral>
    ensures { result ≡ dotted (slice_split (λ b. b == 46) word.now) }
{
    let (a, b, c, d) = four_parts(word)?;
    if is_digits(a) && is_digits(b) && is_digits(c) && is_digits(d) {
        Some(four_bytes(a, b, c, d))
    } else {
        None
    }
}

type FourParts<'a> = (&'a [u8], &'a [u8], &'a [u8], &'a [u8]);

fn four_parts(word: &[u8]) -> Option<FourParts<'_>>
    ensures { AreFourParts (slice_split (λ b. b == 46) word.now) result }
{
    let (a, rest) = cut(b'.', word);
    let (b, rest) = cut(b'.', rest?);
    let (c, rest) = cut(b'.', rest?);
    let (d, rest) = cut(b'.', rest?);
    match rest {
        None => Some((a, b, c, d)),
        Some(_) => None,
    }
}

fn four_bytes(a: &[u8], b: &[u8], c: &[u8], d: &[u8]) -> Numeral
    requires a { IsTrue (is_digits a.now) }
    requires b { IsTrue (is_digits b.now) }
    requires c { IsTrue (is_digits c.now) }
    requires d { IsTrue (is_digits d.now) }
    ensures { result ≡ four_bytes (digits_onto 0 a.now) (digits_onto 0 b.now) (digits_onto 0 c.now) (digits_onto 0 d.now) }
{
    match (byte_of(a), byte_of(b), byte_of(c), byte_of(d)) {
        (Some(a), Some(b), Some(c), Some(d)) => {
            Numeral::Number(u32::from_be_bytes([a, b, c, d]) as u64)
        }
        _ => Numeral::TooGreat,
    }
}

fn byte_of(digits: &[u8]) -> Option<u8>
    requires { IsTrue (is_digits digits.now) }
    ensures { SomeIff result (digits_onto 0 digits.now < 256) (digits_onto 0 digits.now) }
{
    let number = number_of(digits)?;
    if number < 256 {
        Some(number as u8)
    } else {
        None
    }
}

// An Ethernet address, six pairs joined by colons.
fn paired(word: &[u8]) -> Option<Numeral>
    ensures { result ≡ paired (slice_split (λ b. b == 58) word.now) }
{
    let (a, b, c, d, e, f) = six_parts(word)?;
    let bytes = [
        0,
        0,
        pair(a)?,
        pair(b)?,
        pair(c)?,
        pair(d)?,
        pair(e)?,
        pair(f)?,
    ];
    Some(Numeral::Number(u64::from_be_bytes(bytes)))
}

type SixParts<'a> = (&'a [u8], &'a [u8], &'a [u8], &'a [u8], &'a [u8], &'a [u8]);

fn six_parts(word: &[u8]) -> Option<SixParts<'_>>
    ensures { AreSixParts (slice_split (λ b. b == 58) word.now) result }
{
    let (a, rest) = cut(b':', word);
    let (b, rest) = cut(b':', rest?);
    let (c, rest) = cut(b':', rest?);
    let (d, rest) = cut(b':', rest?);
    let (e, rest) = cut(b':', rest?);
    let (f, rest) = cut(b':', rest?);
    match rest {
        None => Some((a, b, c, d, e, f)),
        Some(_) => None,
    }
}

// A pair of digits of base 16.
fn pair(part: &[u8]) -> Option<u8>
    ensures { SomeIff result (IsTrue (is_pair part.now)) (hex_onto 0 part.now) }
{
    match part {
        [a, b] if is_hex_digit(*a) && is_hex_digit(*b) => {
            Some(16 * hex_worth(*a) + hex_worth(*b))
        }
        _ => None,
    }
}
