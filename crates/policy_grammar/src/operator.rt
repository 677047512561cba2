// The operator that a token is.
ghost use Rattle.std.specs.Prelude.{◌≡◌};
ghost use Rattle.policy_grammar.specs.Automaton.{operator_in};

use crate::tokens::{is_keyword, is_sign};
use maple_base::Operator;
use policy_tokens::{Keyword, Sign, Token};

/// The operator that a token is.
pub fn operator_in(token: &Token) -> Option<Operator>
    ensures { result ≡ operator_in token.now }
{
    if is_keyword(token, Keyword::Or) {
        Some(Operator::Or)
    } else if is_keyword(token, Keyword::And) {
        Some(Operator::And)
    } else if is_sign(token, Sign::Equal) {
        Some(Operator::Equal)
    } else if is_sign(token, Sign::NotEqual) {
        Some(Operator::NotEqual)
    } else if is_sign(token, Sign::Less) {
        Some(Operator::Less)
    } else if is_sign(token, Sign::LessEqual) {
        Some(Operator::LessEqual)
    } else if is_sign(token, Sign::Plus) {
        Some(Operator::Add)
    } else if is_sign(token, Sign::Minus) {
        Some(Operator::Sub)
    } else {
        None
    }
}
