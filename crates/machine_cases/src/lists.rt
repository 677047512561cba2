// Lists of rules of calls.
ghost use Rattle.std.specs.Prelude.{IfOk};
ghost use Rattle.switch_session.specs.Parts.{IsList};
ghost use Rattle.update_plan.specs.Batches.{IsTarget};

use crate::targets::{is_normal, is_target};
use case_text::{CaseStop, Words};
use case_values::rules_of;
use maple_base::RuleList;
use std::alloc::Global;

/// The list of the rules of a text, or of `none`, where it is one for a switch with room for so many.
pub fn list_of(alloc: Global, text: &str, capacity: u32) -> Result<RuleList, CaseStop>
    ensures { IfOk result (λ list. IsTarget capacity list) }
{
    let rules = if text == "none" { "" } else { text };
    let (facts, barriers) = rules_of(alloc, Words::new(rules))?;
    let list = RuleList::new(facts, barriers);
    if is_target(alloc, &list, capacity)? {
        Ok(list)
    } else {
        Err(CaseStop::Unread)
    }
}

/// Such a list, where a session may be led to it.
pub fn session_list(alloc: Global, text: &str, capacity: u32) -> Result<RuleList, CaseStop>
    ensures { IfOk result (λ list. IsList capacity list) }
{
    let list = list_of(alloc, text, capacity)?;
    if is_normal(alloc, &list)? {
        Ok(list)
    } else {
        Err(CaseStop::Unread)
    }
}
