// What is written of a policy alone.
ghost use Rattle.std.specs.Prelude.{◌≢◌, IfErr, IfOk};
ghost use Rattle.maple_io.specs.Views.{NoWriteFailed};
ghost use Rattle.policy_text.specs.Printed.{policy_text};
ghost use Rattle.report_text.specs.Report.{spelled};
ghost use Rattle.policy_text.specs.Texts.{IsTextOf};
ghost use Rattle.maple_top.specs.Ends.{Ends};
ghost use Rattle.maple_top.specs.Running.{IsPolicyStop};

use crate::finish::put_text;
use crate::status::Status;
use maple_base::PolicyFault;
use maple_io::Sink;
use policy_lang::Policy;
use policy_text::{ReadError, print_policy, read_policy};
use report_text::{Line, write_line};
use std::alloc::Global;

/// Writes the printed form of a policy.
pub fn put_policy<O: Sink>(alloc: Global, policy: &Policy, output: &mut O) -> Status
    ensures ends { Ends (O.tells output.old) (O.tells output.new) Status.Done (policy_text policy.now) result }
    ensures spared { result ≢ Status.WriteFault → NoWriteFailed (O.tells output.old) (O.tells output.new) }
{
    let mut text = Vec::new(alloc);
    let Ok(()) = print_policy(policy, &mut text) else {
        return Status::NoMemory;
    };
    put_text(output, &text, Status::Done)
}

/// Why a text gave no policy.
#[derive(Drop)]
pub enum PolicyStop {
    /// It is refused by this line.
    Refused(Line),
    /// Memory ran out.
    NoMemory,
}

/// The policy of a text.
pub fn policy_of(alloc: Global, text: &[u8]) -> Result<Policy, PolicyStop>
    ensures policy { IfOk result (λ policy. IsTextOf policy text.now) }
    ensures refused { IfErr result (IsPolicyStop text.now) }
{
    match read_policy(alloc, text) {
        Ok(policy) => Ok(policy),
        Err(ReadError::Refused { line, column, kind }) => match PolicyFault::numbered(kind) {
            Some(fault) => Err(PolicyStop::Refused(Line::RefusedPolicy {
                line,
                column,
                kind: fault,
            })),
            // The reader tells no other number.
            None => unreachable!(),
        },
        Err(ReadError::NoMemory) => Err(PolicyStop::NoMemory),
    }
}

/// Writes the line by which a policy is refused.
pub fn refuse_policy<O: Sink>(alloc: Global, output: &mut O, line: &Line) -> Status
    ensures ends { Ends (O.tells output.old) (O.tells output.new) Status.Policy (spelled line.now) result }
    ensures spared { result ≢ Status.WriteFault → NoWriteFailed (O.tells output.old) (O.tells output.new) }
{
    let mut text = Vec::new(alloc);
    let Ok(()) = write_line(line, &mut text) else {
        return Status::NoMemory;
    };
    put_text(output, &text, Status::Policy)
}
