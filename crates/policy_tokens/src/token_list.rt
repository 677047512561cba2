// The tokens of a text.
ghost use Rattle.std.specs.Prelude.{◌≡◌};
ghost use Rattle.policy_tokens.specs.Tokens.{TokenList};

use crate::{PlacedToken, Position};
use std::marker::Model;

/// The tokens of a text in order, and the position of its end.
#[derive(Drop)]
pub struct Tokens {
    list: Vec<PlacedToken>,
    end: Position,
}

impl Model for Tokens {
    ghost use Rattle.policy_tokens.specs.Tokens.{TokenList};

    ghost Value = { TokenList };

    ghost view = { λ a. record { tokens = a.list.items; end = a.end } };
}

impl Tokens {
    // These tokens, and this end.
    pub(crate) fn new(list: Vec<PlacedToken>, end: Position) -> Tokens
        ensures tokens { result.tokens ≡ list.items }
        ensures end { result.end ≡ end }
    {
        Tokens { list, end }
    }

    /// The tokens, in the order of the text.
    pub fn items(&self) -> &[PlacedToken]
        ensures { result.now ≡ self.now.tokens }
    {
        &self.list
    }

    /// The position behind the text.
    pub fn end(&self) -> Position
        ensures { result ≡ self.now.end }
    {
        self.end
    }
}
