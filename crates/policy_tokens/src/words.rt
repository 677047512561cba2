// Which token a word or a sign is.
ghost use Rattle.std.specs.Prelude.{◌≡◌, ◌==◌, ◌∷◌, [], ◌<◌, length, if◌then◌else◌, Err, MatchOption, None};
ghost use Rattle.std.specs.List.{find, slice_split};
ghost use Rattle.std.specs.Str.{bytes_eq};
ghost use Rattle.maple_base.specs.Names.{is_name};
ghost use Rattle.maple_text.specs.Numbers.{numeral_of};
ghost use Rattle.policy_tokens.specs.Spellings.{keyword_text, keywords, sign_text, signs};
ghost use Rattle.policy_tokens.specs.Words.{plain_token, packet_token, place_token, parts_token, numeral_token, token_or, word_token, sign_of, begins_word, token_of};

use crate::bytes::is_word_byte;
use crate::{Keyword, Sign, Token};
use maple_base::{Field, Name, PolicyFault};
use maple_text::{Numeral, cut, numeral_of};

const KEYWORDS: [Keyword; 22] = [
    Keyword::Table,
    Keyword::Policy,
    Keyword::Learning,
    Keyword::Drop,
    Keyword::Flood,
    Keyword::Out,
    Keyword::Route,
    Keyword::Let,
    Keyword::If,
    Keyword::Else,
    Keyword::While,
    Keyword::Host,
    Keyword::Hop,
    Keyword::Up,
    Keyword::At,
    Keyword::As,
    Keyword::Is,
    Keyword::And,
    Keyword::Or,
    Keyword::Not,
    Keyword::In,
    Keyword::Packet,
];

const SIGNS: [Sign; 15] = [
    Sign::OpenBrace,
    Sign::CloseBrace,
    Sign::OpenParenthesis,
    Sign::CloseParenthesis,
    Sign::OpenBracket,
    Sign::CloseBracket,
    Sign::Semicolon,
    Sign::Comma,
    Sign::Assign,
    Sign::Equal,
    Sign::NotEqual,
    Sign::Less,
    Sign::LessEqual,
    Sign::Plus,
    Sign::Minus,
];

/// The token that a word or a sign is.
pub fn token_of(bytes: &[u8]) -> Result<Token, PolicyFault>
    ensures { result ≡ token_of bytes.now }
{
    if begins_word(bytes) {
        word_token(bytes)
    } else {
        sign_of(bytes)
    }
}

fn begins_word(bytes: &[u8]) -> bool
    ensures { result ≡ begins_word bytes.now }
{
    match bytes {
        [] => false,
        [first, ..] => is_word_byte(*first),
    }
}

fn word_token(word: &[u8]) -> Result<Token, PolicyFault>
    ensures { result ≡ word_token word.now }
{
    if let Some(token) = plain_token(word) {
        Ok(token)
    } else if let Some(token) = parts_token(word) {
        Ok(token)
    } else {
        numeral_token(word)
    }
}

fn plain_token(word: &[u8]) -> Option<Token>
    ensures { result ≡ plain_token word.now }
{
    match Name::new(word) {
        Some(name) => Some(Token::Name(name)),
        None => Some(Token::Keyword(keyword_of(&KEYWORDS, word)?)),
    }
}

fn keyword_of(keywords: &[Keyword], word: &[u8]) -> Option<Keyword>
    ensures { result ≡ find (λ k. bytes_eq (keyword_text k) word.now) keywords.now }
{
    for keyword in keywords {
        if keyword.text() == word {
            return Some(*keyword);
        }
    }
    None
}

fn parts_token(word: &[u8]) -> Option<Token>
    ensures { result ≡ parts_token (slice_split (λ b. b == 46) word.now) }
{
    let (front, part) = two_parts(word)?;
    if front == b"pkt".as_slice() {
        packet_token(part)
    } else {
        part_of_name(front, part)
    }
}

fn part_of_name(front: &[u8], part: &[u8]) -> Option<Token>
    ensures { result ≡ (if is_name front.now then place_token front.now part.now else None) }
{
    match Name::new(front) {
        Some(name) => place_token(name, part),
        None => None,
    }
}

// The parts of a word with one dot.
fn two_parts(word: &[u8]) -> Option<(&[u8], &[u8])>
    ensures { let parts = slice_split (λ b. b == 46) word.now in MatchOption result (parts_token parts ≡ None) (λ p. parts ≡ p.0.now ∷ p.1.now ∷ []) }
{
    let (front, rest) = cut(b'.', word);
    let (part, rest) = cut(b'.', rest?);
    match rest {
        None => Some((front, part)),
        Some(_) => None,
    }
}

fn packet_token(part: &[u8]) -> Option<Token>
    ensures { result ≡ packet_token part.now }
{
    if part == b"switch".as_slice() {
        Some(Token::PacketSwitch)
    } else {
        Some(Token::Field(Field::named(part)?))
    }
}

fn place_token(name: Name, part: &[u8]) -> Option<Token>
    ensures { result ≡ place_token name part.now }
{
    if part == b"switch".as_slice() {
        Some(Token::SwitchOf(name))
    } else if part == b"port".as_slice() {
        Some(Token::PortOf(name))
    } else {
        None
    }
}

fn numeral_token(word: &[u8]) -> Result<Token, PolicyFault>
    ensures { result ≡ numeral_token (numeral_of word.now) }
{
    match numeral_of(word) {
        Some(Numeral::Number(number)) => Ok(Token::Number(number)),
        Some(Numeral::TooGreat) => Err(PolicyFault::NumberRange),
        None => Err(PolicyFault::Token),
    }
}

fn sign_of(bytes: &[u8]) -> Result<Token, PolicyFault>
    ensures { result ≡ sign_of bytes.now }
{
    match find_sign(&SIGNS, bytes) {
        Some(sign) => Ok(Token::Sign(sign)),
        None => Err(PolicyFault::Token),
    }
}

fn find_sign(signs: &[Sign], bytes: &[u8]) -> Option<Sign>
    ensures { result ≡ find (λ s. bytes_eq (sign_text s) bytes.now) signs.now }
{
    for sign in signs {
        if sign.text() == bytes {
            return Some(*sign);
        }
    }
    None
}
