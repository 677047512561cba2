// The tokens of texts.
use crate::texts::text_in;
use case_text::{CaseStop, Words, push_text};
use policy_tokens::{Position, Token, Tokens, TokensError, read_tokens};
use std::alloc::{AllocError, Global};

/// tokens TEXT: each token behind its place, and the place of the end; or the place of the first fault
/// with its number.
pub fn tokens(alloc: Global, words: Words<'_>, out: &mut String) -> Result<(), CaseStop> {
    let text = text_in(alloc, words)?;
    match read_tokens(alloc, &text) {
        Ok(tokens) => Ok(push_tokens(&tokens, out)?),
        Err(TokensError::Fault { position, kind }) => {
            push_position(position, out)?;
            Ok(write!(out, " kind {}", kind.number())?)
        }
        Err(TokensError::NoMemory) => Err(CaseStop::NoMemory),
    }
}

fn push_tokens(tokens: &Tokens, out: &mut String) -> Result<(), AllocError> {
    for placed in tokens.items() {
        push_position(placed.position, out)?;
        out.push_str(" ")?;
        push_token(&placed.token, out)?;
        out.push_str(", ")?;
    }
    push_position(tokens.end(), out)
}

fn push_position(position: Position, out: &mut String) -> Result<(), AllocError> {
    write!(out, "{}:{}", position.line, position.column)
}

/// Appends the kind of a token and what it has.
pub fn push_token(token: &Token, out: &mut String) -> Result<(), AllocError> {
    match token {
        Token::Keyword(keyword) => push_word("word ", keyword.text(), out),
        Token::Name(name) => push_word("name ", name.text(), out),
        Token::Field(field) => push_word("field ", field.name().as_bytes(), out),
        Token::PacketSwitch => out.push_str("switch"),
        Token::SwitchOf(name) => push_word("switch of ", name.text(), out),
        Token::PortOf(name) => push_word("port of ", name.text(), out),
        Token::Number(number) => write!(out, "number {number}"),
        Token::Sign(sign) => push_word("sign ", sign.text(), out),
    }
}

/// Appends a kind and a word.
pub fn push_word(kind: &str, text: &[u8], out: &mut String) -> Result<(), AllocError> {
    out.push_str(kind)?;
    push_text(text, out)
}
