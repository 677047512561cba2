// The two batches of an update.
use crate::lists::list_of;
use case_text::{CaseStop, Words};
use case_values::{push_match, push_rule};
use maple_base::TableMod;
use std::alloc::{AllocError, Global};
use update_plan::{Plan, plan};

/// plan CAPACITY RULES > RULES
pub fn push_plan_of(alloc: Global, mut words: Words<'_>, out: &mut String) -> Result<(), CaseStop> {
    let capacity = words.number_u32()?;
    let (from, to) = words.rest().split_once(" > ").ok_or(CaseStop::Unread)?;
    let a = list_of(alloc, from, capacity)?;
    let b = list_of(alloc, to, capacity)?;
    let plan = plan(alloc, &a, &b, capacity)?;
    Ok(push_plan(&plan, out)?)
}

fn push_plan(plan: &Plan, out: &mut String) -> Result<(), AllocError> {
    out.push_str(if plan.clear { "clear first" } else { "first" })?;
    push_changes(plan.first.items(), out)?;
    out.push_str(" second")?;
    push_changes(plan.second.items(), out)
}

// ` +` and a rule that is added, or ` -` and the priority and the match of one that is deleted.
fn push_changes(changes: &[TableMod], out: &mut String) -> Result<(), AllocError> {
    for change in changes {
        match change {
            TableMod::Add(rule) => {
                out.push_str(" +")?;
                push_rule(rule, out)?;
            }
            TableMod::DeleteStrict { of, priority } => {
                write!(out, " -{priority} ")?;
                push_match(of, out)?;
            }
            TableMod::DeleteAll => out.push_str(" clear")?,
        }
    }
    Ok(())
}
