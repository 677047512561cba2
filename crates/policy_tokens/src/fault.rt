// Why a text has no tokens.
ghost use Rattle.std.specs.Prelude.{◌≡◌};
ghost use Rattle.policy_tokens.specs.declared.fault.TokensError.TheVariants.{NoMemory as no_memory};

use crate::Position;
use maple_base::PolicyFault;
use std::alloc::AllocFailed;

/// Why a text has no tokens.
#[derive(Clone, Copy, Debug, PartialEq, Eq)]
pub enum TokensError {
    /// The first fault of the text: `NotAscii`, `Token`, `NumberRange`, or `TooLong` for its bytes.
    Fault {
        position: Position,
        kind: PolicyFault,
    },
    /// Memory ran out.
    NoMemory,
}

impl<T: Drop> From<AllocFailed<T>> for TokensError {
    ghost from_gives = { λ _ error. error ≡ no_memory };

    fn from(_error: AllocFailed<T>) -> TokensError {
        TokensError::NoMemory
    }
}
