// The operators of policies.
ghost use Rattle.std.specs.Prelude.{◌≡◌};
ghost use Rattle.maple_base.specs.Operators.{level_of, left_level, right_level};

/// An operator between two expressions of a policy.
#[derive(Clone, Copy, Debug, PartialEq, Eq)]
pub enum Operator {
    Or,
    And,
    Equal,
    NotEqual,
    Less,
    LessEqual,
    Add,
    Sub,
}

impl Operator {
    /// The level of what it makes: 0 for `or`, 1 for `and`, 3 for comparisons, 4 for sums.
    pub fn level(self) -> u8
        ensures { result ≡ level_of self }
    {
        match self {
            Operator::Or => 0,
            Operator::And => 1,
            Operator::Equal | Operator::NotEqual | Operator::Less | Operator::LessEqual => 3,
            Operator::Add | Operator::Sub => 4,
        }
    }

    /// The least level of its left part: chains group to the left, and comparisons make no chain.
    pub fn left_level(self) -> u8
        ensures { result ≡ left_level self }
    {
        match self {
            Operator::Or => 0,
            Operator::And => 1,
            _ => 4,
        }
    }

    /// The least level of its right part.
    pub fn right_level(self) -> u8
        ensures { result ≡ right_level self }
    {
        match self {
            Operator::Or => 1,
            Operator::And => 2,
            Operator::Equal | Operator::NotEqual | Operator::Less | Operator::LessEqual => 4,
            Operator::Add | Operator::Sub => 5,
        }
    }
}
