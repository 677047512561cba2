// Rules by their match and priority, in a sorted copy of a list.
ghost use Rattle.std.specs.Prelude.{◌≡◌, ◌&&◌, true, false, Contains, IfOk, IfSome, MatchOption};
ghost use Rattle.std.specs.List.{AllPairs};
ghost use Rattle.std.specs.List.Sorted.{IsPermutation};
ghost use Rattle.maple_base.specs.Choice.{Differ};
ghost use Rattle.flow_table.specs.Effects.{is_at, has_at};
ghost use Rattle.update_plan.specs.Batches.{rules_of, same_rule};
ghost use Rattle.update_plan.specs.Lookups.{code, flag, value_of, pair_key, rule_key, IsIndex, is_in, is_barrier, barrier_at};

use maple_base::{CONTROLLER_PORT, Match, NoMemory, Rule, RuleList};
use std::alloc::Global;

/// All rules of a list, sorted for look-ups.
pub fn index_of(alloc: Global, list: &RuleList) -> Result<Vec<Rule>, NoMemory>
    requires { AllPairs Differ (rules_of list.now) }
    ensures same { IfOk result (λ index. IsPermutation (rules_of list.now) index.items) }
    ensures index { IfOk result (λ index. IsIndex index.items) }
{
    let mut rules = Vec::from_slice(alloc, list.facts())?;
    rules.extend_from_slice(list.barriers())?;
    rules.sort_by_key(
        |rule|
            ensures { result ≡ rule_key rule.now }
        { pair_key(&rule.of, rule.priority) },
    )?;
    Ok(rules)
}

/// Whether this very rule is there.
pub fn is_in(index: &[Rule], rule: &Rule) -> bool
    requires { IsIndex index.now }
    ensures { result ≡ is_in index.now rule.now }
{
    match rule_at(index, &rule.of, rule.priority) {
        Some(other) => same_rule(rule, other),
        None => false,
    }
}

/// Whether there is a rule of its match and priority.
pub fn has_at(index: &[Rule], rule: &Rule) -> bool
    requires { IsIndex index.now }
    ensures { result ≡ has_at rule.now.of rule.now.priority index.now }
{
    rule_at(index, &rule.of, rule.priority).is_some()
}

/// Whether there is a barrier of its match and priority.
pub fn barrier_at(index: &[Rule], rule: &Rule) -> bool
    requires { IsIndex index.now }
    ensures { result ≡ barrier_at index.now rule.now }
{
    match rule_at(index, &rule.of, rule.priority) {
        Some(other) => is_barrier(other),
        None => false,
    }
}

fn same_rule(rule: &Rule, other: &Rule) -> bool
    ensures { result ≡ same_rule rule.now other.now }
{
    is_at(other, &rule.of, rule.priority)
        && other.actions.items() == rule.actions.items()
        && other.cookie == rule.cookie
        && other.idle == rule.idle
}

fn is_at(rule: &Rule, of: &Match, priority: u16) -> bool
    ensures { result ≡ is_at of.now priority rule.now }
{
    rule.of == *of && rule.priority == priority
}

fn is_barrier(rule: &Rule) -> bool
    ensures { result ≡ is_barrier rule.now }
{
    rule.actions.items() == [CONTROLLER_PORT].as_slice()
}

// The one rule of this match and this priority.
fn rule_at<'a>(index: &'a [Rule], of: &Match, priority: u16) -> Option<&'a Rule>
    requires { IsIndex index.now }
    ensures found { IfSome result (λ rule. Contains index.now rule.now) }
    ensures at { MatchOption result (has_at of.now priority index.now ≡ false) (λ rule. is_at of.now priority rule.now ≡ true) }
{
    let key = pair_key(of, priority);
    match index.binary_search_by_key(
        &key,
        |rule|
            ensures { result ≡ rule_key rule.now }
        { pair_key(&rule.of, rule.priority) },
    ) {
        Ok(place) => Some(&index[place]),
        Err(_) => None,
    }
}

// A match and a priority as numbers, which tell them.
fn pair_key(of: &Match, priority: u16) -> [u64; 15]
    ensures { result ≡ pair_key of.now priority }
{
    [
        priority as u64,
        code16(of.in_port),
        flag(of.dl_src),
        value_of(of.dl_src),
        flag(of.dl_dst),
        value_of(of.dl_dst),
        code16(of.dl_vlan),
        code8(of.dl_pcp),
        code16(of.dl_type),
        code8(of.nw_tos),
        code8(of.nw_proto),
        code32(of.nw_src),
        code32(of.nw_dst),
        code16(of.tp_src),
        code16(of.tp_dst),
    ]
}

fn code8(fixed: Option<u8>) -> u64
    ensures { result ≡ code fixed }
{
    match fixed {
        None => 0,
        Some(value) => value as u64 + 1,
    }
}

fn code16(fixed: Option<u16>) -> u64
    ensures { result ≡ code fixed }
{
    match fixed {
        None => 0,
        Some(value) => value as u64 + 1,
    }
}

fn code32(fixed: Option<u32>) -> u64
    ensures { result ≡ code fixed }
{
    match fixed {
        None => 0,
        Some(value) => value as u64 + 1,
    }
}

fn flag(fixed: Option<u64>) -> u64
    ensures { result ≡ flag fixed }
{
    match fixed {
        None => 0,
        Some(_) => 1,
    }
}

fn value_of(fixed: Option<u64>) -> u64
    ensures { result ≡ value_of fixed }
{
    match fixed {
        None => 0,
        Some(value) => value,
    }
}
