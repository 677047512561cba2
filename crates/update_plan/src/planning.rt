// The plan of an update.
ghost use Rattle.std.specs.Prelude.{◌≡◌, true, IfOk};
ghost use Rattle.update_plan.specs.Batches.{no_rules, IsTarget, is_over, origin, IsFirst, IsSecond};

use crate::batch::{additions, sent};
use crate::changes::changes_of;
use crate::told::Plan;
use maple_base::{NoMemory, RuleList};
use std::alloc::Global;

/// The two batches that lead a switch with room for so many rules from one list to another.
pub fn plan(alloc: Global, a: &RuleList, b: &RuleList, capacity: u32) -> Result<Plan, NoMemory>
    requires from { IsTarget capacity a.now }
    requires to { IsTarget capacity b.now }
    ensures clear { IfOk result (λ plan. plan.clear ≡ is_over capacity a.now b.now) }
    ensures first { IfOk result (λ plan. IsFirst (origin capacity a.now b.now) b.now plan.first) }
    ensures second { IfOk result (λ plan. IsSecond (origin capacity a.now b.now) b.now plan.second) }
{
    let changes = changes_of(alloc, a, b, capacity)?;
    if changes.over {
        return cleared(alloc, b);
    }
    let first = sent(alloc, changes.first_adds, changes.first_deletes)?;
    let second = sent(alloc, changes.second_adds, changes.second_deletes)?;
    Ok(Plan {
        clear: false,
        first,
        second,
    })
}

// From the empty list all barriers come and then all facts.
fn cleared(alloc: Global, b: &RuleList) -> Result<Plan, NoMemory>
    ensures clear { IfOk result (λ plan. plan.clear ≡ true) }
    ensures first { IfOk result (λ plan. IsFirst no_rules b.now plan.first) }
    ensures second { IfOk result (λ plan. IsSecond no_rules b.now plan.second) }
{
    let first = additions(alloc, b.barriers())?;
    let second = additions(alloc, b.facts())?;
    Ok(Plan {
        clear: true,
        first,
        second,
    })
}
