// What is wrong with the tokens of a policy.
ghost use Rattle.std.specs.Prelude.{◌≡◌};
ghost use Rattle.policy_outline.specs.declared.fault.OutlineError.TheVariants.{NoMemory as no_memory};

use maple_base::{NoMemory, PolicyFault};

/// Why the tokens of a text are those of no policy.
#[derive(Clone, Copy, Debug, PartialEq, Eq)]
pub enum OutlineError {
    /// The first fault, and the number of tokens ahead of it: `Syntax`, `Nesting`, `Nodes`, or
    /// `TooLong` for the 17th table.
    Fault { token: usize, kind: PolicyFault },
    /// Memory ran out.
    NoMemory,
}

impl From<NoMemory> for OutlineError {
    ghost from_gives = { λ _ error. error ≡ no_memory };

    fn from(_error: NoMemory) -> OutlineError {
        OutlineError::NoMemory
    }
}
