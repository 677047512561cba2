// What expressions give.
ghost use Rattle.std.specs.Prelude.{◌≡◌};
ghost use Rattle.policy_meaning.specs.Values.{number_in, truth_in, place_in, applied, settling};
ghost use Rattle.policy_eval.specs.Data.{datum_of, IsSettled, IsMade};

use maple_base::{Operator, Place};

/// What an expression gives.
#[derive(Clone, Copy, Debug, PartialEq, Eq)]
pub enum Datum {
    Number(u64),
    Truth(bool),
    At(Place),
}

impl Datum {
    /// The number, or 0 where this is no number.
    pub fn number(self) -> u64
        ensures { result ≡ number_in (datum_of self) }
    {
        match self {
            Datum::Number(number) => number,
            _ => 0,
        }
    }

    /// The truth, or false where this is no truth.
    pub fn truth(self) -> bool
        ensures { result ≡ truth_in (datum_of self) }
    {
        matches!(self, Datum::Truth(true))
    }

    /// The answer where a left part that is this settles an operator: false settles `and`, true
    /// settles `or`.
    pub fn settles(self, operator: Operator) -> Option<Datum>
        ensures { IsSettled result (settling operator) (datum_of self) }
    {
        match operator {
            Operator::Or if self.truth() => Some(Datum::Truth(true)),
            Operator::And if !self.truth() => Some(Datum::Truth(false)),
            _ => None,
        }
    }

    /// The place, or port 0 of switch 0 where this is no place.
    pub fn place(self) -> Place
        ensures { result ≡ place_in (datum_of self) }
    {
        match self {
            Datum::At(place) => place,
            _ => Place { switch: 0, port: 0 },
        }
    }
}

// What an operator makes of two data. Sums stop at 2^64 - 1, and differences at 0.
pub fn applied(operator: Operator, left: Datum, right: Datum) -> Datum
    ensures { datum_of result ≡ applied operator (datum_of left) (datum_of right) }
{
    match operator {
        Operator::Or => Datum::Truth(left.truth() || right.truth()),
        Operator::And => Datum::Truth(left.truth() && right.truth()),
        Operator::Equal => Datum::Truth(left.number() == right.number()),
        Operator::NotEqual => Datum::Truth(left.number() != right.number()),
        Operator::Less => Datum::Truth(left.number() < right.number()),
        Operator::LessEqual => Datum::Truth(left.number() <= right.number()),
        Operator::Add => Datum::Number(left.number().saturating_add(right.number())),
        Operator::Sub => Datum::Number(left.number().saturating_sub(right.number())),
    }
}

// What an operator makes of both parts, where the left one doesn't settle it.
pub fn made(operator: Operator, left: Datum, right: Datum) -> Datum
    ensures { IsMade result (settling operator) operator (datum_of left) (datum_of right) }
{
    match operator {
        Operator::Or | Operator::And => right,
        _ => applied(operator, left, right),
    }
}
