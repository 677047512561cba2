// Prints a policy as a text.
ghost use Rattle.std.specs.Prelude.{◌≡◌, ◌++◌, OnOk, OnErr};
ghost use Rattle.policy_text.specs.Printed.{policy_text};
ghost use Rattle.policy_text.specs.TextLaws.{IsReadBack};

use crate::policies::append_form;
use crate::print_laws::{grammar_law, limit_law, spelling_law};
use maple_base::NoMemory;
use policy_lang::Policy;

/// Appends the printed form of a policy to `out`: its tables, a line each, and then the policy, a
/// statement a line, with two spaces for each block round it. Parentheses stand exactly where the tree
/// could not be read without them, and numbers are decimal. Where it has at most 65,536 bytes it is a
/// text of that policy: what is read of it is the same tree.
///
/// # Errors
///
/// Out of memory. `out` is unchanged then.
pub fn print_policy(policy: &Policy, out: &mut Vec<u8>) -> Result<(), NoMemory>
    ensures text { OnOk result (out.new.items ≡ out.old.items ++ policy_text policy.now) }
    ensures kept { OnErr result (out.new.items ≡ out.old.items) }
    ensures reads_back { IsReadBack policy.now }
{
    grammar_law();
    limit_law();
    spelling_law();
    append_form(policy, out)
}
