// Lists of rules that a plan may lead from and to.
ghost use Rattle.std.specs.Prelude.{◌≡◌, IfOk};
ghost use Rattle.std.specs.List.{list_all};
ghost use Rattle.maple_base.specs.declared.decision.Rule.{Rule};
ghost use Rattle.maple_base.specs.Keys.{match_normal};
ghost use Rattle.flow_table.specs.Effects.{is_at, has_at};
ghost use Rattle.update_plan.specs.Batches.{rules_of};
ghost use Rattle.update_plan.specs.Lookups.{is_barrier};
ghost use Rattle.machine_cases.specs.Targets.{are_distinct, are_facts, is_plain_barrier, are_barriers, is_target};

use maple_base::{CONTROLLER_PORT, Match, Rule, RuleList};
use std::alloc::{AllocError, Global};

/// Whether a plan for a switch with room for so many may lead from and to the list.
pub fn is_target(alloc: Global, list: &RuleList, capacity: u32) -> Result<bool, AllocError>
    ensures { IfOk result (λ answer. answer ≡ is_target capacity list.now) }
{
    let mut all = Vec::from_slice(alloc, list.facts())?;
    all.extend_from_slice(list.barriers())?;
    Ok(
        all.len() <= capacity as usize
            && are_distinct(&all)
            && are_facts(list.facts())
            && are_barriers(list.barriers()),
    )
}

fn are_distinct(rules: &[Rule]) -> bool
    ensures { result ≡ are_distinct rules.now }
{
    match rules {
        [] => true,
        [rule, rest @ ..] => !has_at(rest, rule) && are_distinct(rest),
    }
}

fn has_at(rules: &[Rule], rule: &Rule) -> bool
    ensures { result ≡ has_at rule.now.of rule.now.priority rules.now }
{
    rules
        .iter()
        .any(|other| is_at(other, &rule.of, rule.priority))
}

fn is_at(rule: &Rule, of: &Match, priority: u16) -> bool
    ensures { result ≡ is_at of.now priority rule.now }
{
    rule.of == *of && rule.priority == priority
}

fn are_facts(rules: &[Rule]) -> bool
    ensures { result ≡ are_facts rules.now }
{
    rules.iter().all(|rule| !is_barrier(rule))
}

fn are_barriers(rules: &[Rule]) -> bool
    ensures { result ≡ are_barriers rules.now }
{
    rules.iter().all(|rule| is_plain_barrier(rule))
}

fn is_plain_barrier(rule: &Rule) -> bool
    ensures { result ≡ is_plain_barrier rule.now }
{
    is_barrier(rule) && rule.cookie == 0 && rule.idle == 0
}

fn is_barrier(rule: &Rule) -> bool
    ensures { result ≡ is_barrier rule.now }
{
    rule.actions.items() == [CONTROLLER_PORT].as_slice()
}

/// Whether each match of the list is normal.
pub fn is_normal(alloc: Global, list: &RuleList) -> Result<bool, AllocError>
    ensures { IfOk result (λ answer. answer ≡ list_all (λ (r : Rule). match_normal r.of) (rules_of list.now)) }
{
    let mut all = Vec::from_slice(alloc, list.facts())?;
    all.extend_from_slice(list.barriers())?;
    Ok(are_normal(&all))
}

fn are_normal(rules: &[Rule]) -> bool
    ensures { result ≡ list_all (λ (r : Rule). match_normal r.of) rules.now }
{
    rules.iter().all(|rule| rule.of.is_normal())
}
