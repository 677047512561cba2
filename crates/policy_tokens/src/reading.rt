// Reads the tokens of a text, byte by byte.
ghost use Rattle.std.specs.Prelude.{◌≡◌, ◌+◌, ◌^◌, ◌<◌, ◌≤◌, ◌++◌, [], ◌∷◌, length, drop, take, slice_index, IfOk, OnOk, IfErr, MatchOption, None};
ghost use Rattle.std.specs.Option.{option_map, option_to_list};
ghost use Rattle.maple_base.specs.PolicyLimits.{most_bytes};
ghost use Rattle.policy_tokens.specs.Faults.{faults, IsErrorOf, IsFaultOfTokens};
ghost use Rattle.policy_tokens.specs.Lexemes.{begun, past_behind};
ghost use Rattle.policy_tokens.specs.Positions.{behind};
ghost use Rattle.policy_tokens.specs.Reading.{front_token};
ghost use Rattle.policy_tokens.specs.Tokens.{tokens_of, placed_at, IsInOrder};

use crate::bytes::{begins_lexeme, ends_line, is_text_byte, more};
use crate::words::token_of;
use crate::{PlacedToken, Position, Token, Tokens, TokensError};
use maple_base::PolicyFault;
use maple_base::policy_limit::MOST_BYTES;
use std::alloc::{AllocFailed, Global};

/// The tokens of a policy's text, each with its position, and the position of the text's end.
///
/// # Errors
///
/// The first fault of the text's bytes, words and signs, by its position, and at one position the
/// one of least number.
pub fn read_tokens(alloc: Global, text: &[u8]) -> Result<Tokens, TokensError>
    ensures tokens { IfOk result (λ list. list ≡ tokens_of text.now) }
    ensures faultless { OnOk result (faults text.now ≡ []) }
    ensures in_order { IfOk result IsInOrder }
    ensures few { IfOk result (λ list. length list.tokens ≤ most_bytes) }
    ensures fault { IfErr result (IsErrorOf text.now) }
    ensures kind { IfErr result IsFaultOfTokens }
{
    let mut list = Vec::new(alloc);
    let mut position = Position { line: 1, column: 1 };
    let mut past = 0;
    for (offset, byte) in text.iter().enumerate() {
        let rest = &text[offset..];
        let token = match token_at(past, rest) {
            Ok(token) => token,
            Err(kind) => return Err(TokensError::Fault { position, kind }),
        };
        keep(&mut list, token, position)?;
        if offset == MOST_BYTES {
            return Err(TokensError::Fault {
                position,
                kind: PolicyFault::TooLong,
            });
        }
        past = past_behind(past, rest);
        position = behind(position, *byte);
    }
    Ok(Tokens::new(list, position))
}

fn keep(
    list: &mut Vec<PlacedToken>,
    token: Option<Token>,
    position: Position,
) -> Result<(), AllocFailed<PlacedToken>>
    ensures { OnOk result (list.new.items ≡ list.old.items ++ option_to_list (option_map (placed_at position) token)) }
{
    match token {
        Some(token) => list.push(PlacedToken { token, position }),
        None => Ok(()),
    }
}

// The token that begins with the first byte of a text, of which so many bytes belong to what began
// before.
fn token_at(past: usize, text: &[u8]) -> Result<Option<Token>, PolicyFault>
    requires { 0 < length text.now }
    ensures { result ≡ front_token past (slice_index text.now 0) (drop 1 text.now) }
{
    if !is_text_byte(text[0]) {
        return Err(PolicyFault::NotAscii);
    }
    match begun(past, text) {
        Some(bytes) => Ok(Some(token_of(bytes)?)),
        None => Ok(None),
    }
}

// The word or the sign that begins with the first byte.
fn begun(past: usize, text: &[u8]) -> Option<&[u8]>
    requires { 0 < length text.now }
    ensures { let here = begun past (slice_index text.now 0 ∷ drop 1 text.now) in MatchOption result (here ≡ None) (λ bytes. here ≡ Some bytes.now) }
{
    if past == 0 && begins_lexeme(text[0]) {
        Some(&text[..more(text[0], &text[1..]) + 1])
    } else {
        None
    }
}

fn past_behind(past: usize, text: &[u8]) -> usize
    requires { 0 < length text.now }
    ensures { result ≡ past_behind past (slice_index text.now 0) (drop 1 text.now) }
{
    if past == 0 {
        more(text[0], &text[1..])
    } else {
        past - 1
    }
}

// The position behind a byte.
fn behind(position: Position, byte: u8) -> Position
    requires line { position.line + 1 < 2 ^ 32 }
    requires column { position.column + 1 < 2 ^ 32 }
    ensures { result ≡ behind position byte }
{
    if ends_line(byte) {
        Position {
            line: position.line + 1,
            column: 1,
        }
    } else {
        Position {
            line: position.line,
            column: position.column + 1,
        }
    }
}
