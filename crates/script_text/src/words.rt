// The words behind the first one of a line.
ghost use Rattle.std.specs.Prelude.{◌≡◌, ◌==◌, ◌<◌, IfSome};
ghost use Rattle.std.specs.List.{slice_split};
ghost use Rattle.std.specs.Option.{option_map};
ghost use Rattle.maple_text.specs.Parts.{rest_parts};
ghost use Rattle.script_text.specs.Words.{is_empty, just_one, just_two, just_three, just_four, number_below, name_of};

use maple_base::Name;
use maple_text::{cut, value_of};

/// Whether there are no words.
pub fn is_empty(rest: Option<&[u8]>) -> bool
    ensures { result ≡ is_empty (rest_parts 32 rest.entry) }
{
    rest.is_none()
}

/// The word of a text, where it has one alone.
pub fn one_word(text: &[u8]) -> Option<&[u8]>
    ensures { option_map (λ w. w.now) result ≡ just_one (slice_split (λ b. b == 32) text.now) }
{
    let (a, rest) = cut(b' ', text);
    match rest {
        None => Some(a),
        Some(_) => None,
    }
}

/// The parts of a text round a byte, where there are just two.
pub fn two_parts(stop: u8, text: &[u8]) -> Option<(&[u8], &[u8])>
    ensures { option_map (λ w. (w.0.now, w.1.now)) result ≡ just_two (slice_split (λ b. b == stop) text.now) }
{
    let (a, rest) = cut(stop, text);
    let (b, rest) = cut(stop, rest?);
    match rest {
        None => Some((a, b)),
        Some(_) => None,
    }
}

/// The words of a text, where it has just three.
pub fn three_words(text: &[u8]) -> Option<(&[u8], &[u8], &[u8])>
    ensures { option_map (λ w. (w.0.now, w.1.now, w.2.now)) result ≡ just_three (slice_split (λ b. b == 32) text.now) }
{
    let (a, rest) = cut(b' ', text);
    let (b, rest) = cut(b' ', rest?);
    let (c, rest) = cut(b' ', rest?);
    match rest {
        None => Some((a, b, c)),
        Some(_) => None,
    }
}

/// The words of a text, where it has just four.
pub fn four_words(text: &[u8]) -> Option<(&[u8], &[u8], &[u8], &[u8])>
    ensures { option_map (λ w. (w.0.now, w.1.now, w.2.now, w.3.now)) result ≡ just_four (slice_split (λ b. b == 32) text.now) }
{
    let (a, rest) = cut(b' ', text);
    let (b, rest) = cut(b' ', rest?);
    let (c, rest) = cut(b' ', rest?);
    let (d, rest) = cut(b' ', rest?);
    match rest {
        None => Some((a, b, c, d)),
        Some(_) => None,
    }
}

/// The number that a word spells, where it is below a bound.
pub fn number_below(bound: u64, word: &[u8]) -> Option<u64>
    ensures number { result ≡ number_below bound word.now }
    ensures below { IfSome result (λ number. number < bound) }
{
    let number = value_of(word)?;
    if number < bound { Some(number) } else { None }
}

/// The name that a word is.
pub fn name_of(word: &[u8]) -> Option<Name>
    ensures { result ≡ name_of word.now }
{
    Name::new(word)
}
