// What is read of a policy.
use crate::Operator;
use maple_base::Name;
use policy_tokens::Token;

/// What a token adds to what was read of a policy. The parts of an expression come ahead of what
/// they are parts of.
#[derive(Clone, Copy, Debug, PartialEq, Eq)]
pub enum Event {
    /// A table is named.
    Table(Name),
    /// The controller learns hosts.
    Learning,
    /// A statement begins, or `host` or `hop`.
    Begin,
    /// A name that is declared, assigned or bound.
    Name(Name),
    /// An expression of one token.
    Single(Token),
    /// A parenthesis opens round an expression.
    Group,
    /// It closes.
    GroupEnd,
    /// The word `up`.
    Up,
    /// The word `at`.
    At,
    /// The call of two expressions ends.
    Call,
    /// The word `not`.
    Not,
    /// What is negated ends.
    Negation,
    /// The word `is`, behind a field.
    Is,
    /// What the field is compared with ends.
    Test,
    /// An operator, behind its left part.
    Operator(Operator),
    /// The operator's right part ends.
    Pair(Operator),
    /// The sign `[`: the name ahead of it is that of a table.
    Index,
    /// `host(a)` ends.
    Host,
    /// `hop(a)` ends.
    Hop,
    /// `t[a]` ends.
    Lookup,
    /// What an `if` asks ends with the name that it binds.
    Bind,
    /// What an `if` asks ends, and is an expression.
    Holds,
    Drop,
    Flood,
    /// An `out` of so many expressions ends.
    Out(usize),
    Route,
    Let,
    Assign,
    /// A block opens.
    Open,
    /// A block closes.
    Close,
    /// An `if` without `else` ends.
    If,
    /// An `if` with an `else` ends.
    IfElse,
    While,
}
