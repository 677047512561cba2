// What may be wrong with the text of a policy.
ghost use Rattle.std.specs.Prelude.{◌≡◌};
ghost use Rattle.maple_base.specs.PolicyFaults.{number_of, fault_numbered, FaultsAreNumbered};

use std::fmt;

/// What may be wrong with the text of a policy.
#[derive(Clone, Copy, Debug, PartialEq, Eq)]
pub enum PolicyFault {
    /// A byte that is neither printable ASCII (0x20 to 0x7e) nor tab, line feed or carriage return.
    NotAscii,
    /// A word or a sign of no kind.
    Token,
    /// A token with which no policy can go on; the end of the text counts as one.
    Syntax,
    /// A name that isn't in force.
    UnknownName,
    /// A name that is declared while it is in force.
    Twice,
    /// An expression, or a name, of another type than is wanted.
    TypeMismatch,
    /// A number of 2^64 or more, or a part of an IPv4 address past 255.
    NumberRange,
    /// A node more than 32 deep, or a parenthesis inside 64 open ones.
    Nesting,
    /// The 4,097th node.
    Nodes,
    /// The 65,537th byte, or the 17th table.
    TooLong,
}

impl PolicyFault {
    /// The number by which the fault is told, 1 to 10 in the order of the variants.
    pub fn number(self) -> u8
        ensures { result ≡ number_of self }
    {
        match self {
            PolicyFault::NotAscii => 1,
            PolicyFault::Token => 2,
            PolicyFault::Syntax => 3,
            PolicyFault::UnknownName => 4,
            PolicyFault::Twice => 5,
            PolicyFault::TypeMismatch => 6,
            PolicyFault::NumberRange => 7,
            PolicyFault::Nesting => 8,
            PolicyFault::Nodes => 9,
            PolicyFault::TooLong => 10,
        }
    }

    /// The fault of this number, 1 to 10, or none.
    pub fn numbered(number: u8) -> Option<PolicyFault>
        ensures { result ≡ fault_numbered number }
    {
        match number {
            1 => Some(PolicyFault::NotAscii),
            2 => Some(PolicyFault::Token),
            3 => Some(PolicyFault::Syntax),
            4 => Some(PolicyFault::UnknownName),
            5 => Some(PolicyFault::Twice),
            6 => Some(PolicyFault::TypeMismatch),
            7 => Some(PolicyFault::NumberRange),
            8 => Some(PolicyFault::Nesting),
            9 => Some(PolicyFault::Nodes),
            10 => Some(PolicyFault::TooLong),
            _ => None,
        }
    }
}

/// The number of each fault leads back to it, so no two have one number.
#[tactic(auto, using(crate::proofs::FaultNumbers::numbered_back))]
pub fn fault_numbers_law()
    ensures { FaultsAreNumbered }
{}

#[tactic(auto, unfolding(crate::specs::PolicyFaults::fault_name))]
impl fmt::Display for PolicyFault {
    ghost use Rattle.std.specs.Prelude.{Some};
    ghost use Rattle.maple_base.specs.PolicyFaults.{fault_name};

    ghost output = { λ fault. Some (fault_name fault) };

    fn fmt<W: fmt::Write>(&self, f: &mut fmt::Formatter<W>) -> fmt::Result {
        match self {
            PolicyFault::NotAscii => write!(f, "NotAscii"),
            PolicyFault::Token => write!(f, "Token"),
            PolicyFault::Syntax => write!(f, "Syntax"),
            PolicyFault::UnknownName => write!(f, "UnknownName"),
            PolicyFault::Twice => write!(f, "Twice"),
            PolicyFault::TypeMismatch => write!(f, "TypeMismatch"),
            PolicyFault::NumberRange => write!(f, "NumberRange"),
            PolicyFault::Nesting => write!(f, "Nesting"),
            PolicyFault::Nodes => write!(f, "Nodes"),
            PolicyFault::TooLong => write!(f, "TooLong"),
        }
    }
}
