// Where in a policy a reader stands.
ghost use Rattle.std.specs.Prelude.{◌≡◌};
ghost use Rattle.policy_grammar.specs.Automaton.{least, made, shape_level};

use crate::Operator;

/// What stands around an expression that is being read.
#[derive(Clone, Copy, Debug, PartialEq, Eq)]
pub enum Around {
    /// Its left part and an operator.
    Left(Operator),
    /// The word `not`.
    Not,
    /// A field and `is`.
    Is,
    /// An opening parenthesis.
    Group,
    /// The first expression of a call is being read.
    First,
    /// The second expression of a call is being read.
    Second,
}

/// What an expression belongs to.
#[derive(Clone, Copy, Debug, PartialEq, Eq)]
pub enum Base {
    /// An `out`, with so many expressions ahead of this one.
    Out(u8),
    Route,
    Let,
    Assign,
    If,
    While,
    /// `host(`.
    Host,
    /// `hop(`.
    Hop,
    /// A table and `[`.
    Lookup,
}

/// What was read last of an expression.
#[derive(Clone, Copy, Debug, PartialEq, Eq)]
pub enum Shape {
    Name,
    Field,
    /// Another single thing, a call, or an expression in parentheses.
    Whole,
    /// A test of a field.
    Test,
    Negation,
    /// Two parts of an operator.
    Pair(Operator),
}

/// A block that is open.
#[derive(Clone, Copy, Debug, PartialEq, Eq)]
pub enum Block {
    /// The first block of an `if`.
    First,
    /// The block of an `else`.
    Second,
    /// The block of a `while`.
    Loop,
}

/// Where in a policy a reader stands.
#[derive(Clone, Copy, Debug, PartialEq, Eq)]
pub enum Stage {
    /// Ahead of `table` or `policy`.
    Start,
    /// Behind `table`.
    Table,
    /// Behind the name of a table.
    TableName,
    /// Behind `policy`.
    Policy,
    /// Behind `policy learning`.
    Learning,
    /// Ahead of a statement, or of the end of its block.
    Statement,
    /// The same behind the first block of an `if`, where an `else` may come.
    Else,
    /// Behind `drop` or `flood`.
    Decided,
    /// Behind `let`.
    Let,
    /// Behind `let` and a name.
    LetName,
    /// Behind the name that is assigned.
    Assigned,
    /// Behind `if`.
    If,
    /// Behind `host` or `hop`.
    Asks(Base),
    /// Ahead of an expression, or of what of it is still to come.
    Ahead(Base),
    /// Behind `up` or `at`.
    Callee(Base),
    /// Behind an expression, or behind what of it was read.
    Behind(Base, Shape),
    /// Behind `host(a)`, `hop(a)` or `t[a]`.
    Asked,
    /// The same, and `as`.
    As,
    /// The same, and the name that is bound.
    Bound,
    /// Behind `else`.
    ElseBlock,
    /// Behind the policy.
    End,
}

impl Around {
    /// The least level of an expression that stands there.
    pub fn least(self) -> u8
        ensures { result ≡ least self }
    {
        match self {
            Around::Left(operator) => operator.right_level(),
            Around::Not => 2,
            Around::Is => 4,
            Around::Group | Around::First | Around::Second => 0,
        }
    }

    /// What an expression that stands there becomes a part of, once nothing more of it comes.
    pub fn made(self) -> Shape
        ensures { result ≡ made self }
    {
        match self {
            Around::Left(operator) => Shape::Pair(operator),
            Around::Not => Shape::Negation,
            Around::Is => Shape::Test,
            Around::Group | Around::First | Around::Second => Shape::Whole,
        }
    }
}

impl Shape {
    /// The level of an expression of this shape.
    pub fn level(self) -> u8
        ensures { result ≡ shape_level self }
    {
        match self {
            Shape::Name | Shape::Field | Shape::Whole => 5,
            Shape::Test => 3,
            Shape::Negation => 2,
            Shape::Pair(operator) => operator.level(),
        }
    }
}
