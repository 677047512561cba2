// The text of policies.
ghost use Rattle.std.specs.Prelude.{◌≡◌, ◌++◌, OnOk, OnErr};
ghost use Rattle.std.specs.List.{flat_map};
ghost use Rattle.policy_lang.specs.TreeOf.{tree_of};
ghost use Rattle.policy_text.specs.Printed.{table_text, opening, policy_text, acts_text};

use crate::statements::push_statements;
use maple_base::{Name, NoMemory};
use policy_lang::Policy;
use policy_lang::laws::form_laws;
use std::alloc::AllocError;

// Appends the printed form of a policy: its tables, a line each, and then the policy, a statement
// a line, with two spaces for each block round it. Parentheses stand exactly where the tree could
// not be read without them, and numbers are decimal. Where memory runs out `out` has what it had.
pub fn append_form(policy: &Policy, out: &mut Vec<u8>) -> Result<(), NoMemory>
    ensures text { OnOk result (out.new.items ≡ out.old.items ++ policy_text policy.now) }
    ensures kept { OnErr result (out.new.items ≡ out.old.items) }
{
    // The text is put together apart, so that `out` changes only once it is whole.
    let mut text = Vec::new(*out.allocator());
    push_policy(&mut text, policy)?;
    out.extend_from_slice(&text)?;
    Ok(())
}

fn push_policy(text: &mut Vec<u8>, policy: &Policy) -> Result<(), AllocError>
    ensures { OnOk result (text.new.items ≡ text.old.items ++ policy_text policy.now) }
{
    push_tables(text, policy.tables().items())?;
    text.extend_from_slice(opening(policy.learning()))?;
    push_body(text, policy)?;
    text.extend_from_slice(b"}\n")
}

fn push_tables(text: &mut Vec<u8>, tables: &[Name]) -> Result<(), AllocError>
    ensures { OnOk result (text.new.items ≡ text.old.items ++ flat_map table_text tables.now) }
{
    for table in tables {
        push_table(text, table)?;
    }
    Ok(())
}

fn push_table(text: &mut Vec<u8>, table: &Name) -> Result<(), AllocError>
    ensures { OnOk result (text.new.items ≡ text.old.items ++ table_text table.now) }
{
    text.extend_from_slice(b"table ")?;
    text.extend_from_slice(table.text())?;
    text.extend_from_slice(b";\n")
}

fn opening(learning: bool) -> &'static [u8]
    ensures { result.now ≡ opening learning }
{
    if learning {
        b"policy learning {\n"
    } else {
        b"policy {\n"
    }
}

// Appends the statements of a policy. It has few nodes, so its blocks are few.
fn push_body(text: &mut Vec<u8>, policy: &Policy) -> Result<(), AllocError>
    ensures { OnOk result (text.new.items ≡ text.old.items ++ acts_text (tree_of policy.now.body) 1) }
{
    form_laws();
    push_statements(text, 1, policy.body().items())
}
