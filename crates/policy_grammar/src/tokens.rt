// Which tokens a reader tells apart.
ghost use Rattle.std.specs.Prelude.{◌≡◌};
ghost use Rattle.policy_grammar.specs.Automaton.{is_keyword, is_sign, is_name, is_field, is_value};

use policy_tokens::{Keyword, Sign, Token};

/// Whether a token is this keyword.
pub fn is_keyword(token: &Token, keyword: Keyword) -> bool
    ensures { result ≡ is_keyword keyword token.now }
{
    match token {
        Token::Keyword(found) => found.text() == keyword.text(),
        _ => false,
    }
}

/// Whether a token is this sign.
pub fn is_sign(token: &Token, sign: Sign) -> bool
    ensures { result ≡ is_sign sign token.now }
{
    match token {
        Token::Sign(found) => found.text() == sign.text(),
        _ => false,
    }
}

/// Whether a token is a name.
pub fn is_name(token: &Token) -> bool
    ensures { result ≡ is_name token.now }
{
    matches!(token, Token::Name(_))
}

/// Whether a token is a field of the packet.
pub fn is_field(token: &Token) -> bool
    ensures { result ≡ is_field token.now }
{
    matches!(token, Token::Field(_))
}

/// Whether a token is an expression of its own, and neither a name nor a field.
pub fn is_value(token: &Token) -> bool
    ensures { result ≡ is_value token.now }
{
    match token {
        Token::PacketSwitch | Token::SwitchOf(_) | Token::PortOf(_) | Token::Number(_) => true,
        Token::Keyword(_) | Token::Name(_) | Token::Field(_) | Token::Sign(_) => false,
    }
}
