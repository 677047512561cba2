// The order in which the rules of a list stand.
ghost use Rattle.std.specs.Prelude.{◌≡◌, IfOk};
ghost use Rattle.of10_codec.specs.RuleOrder.{rule_cmp, ArePut};

use crate::encoding::bytes_of;
use maple_base::{NoMemory, Rule};
use std::cmp::Ordering;

/// Which of two rules stands first in a list: the one of lesser priority, and at equal priorities
/// the one whose match is written in lesser bytes. Rules whose bytes are equal stand either way.
pub fn compare_rules(rule: &Rule, other: &Rule) -> Ordering
    ensures { result ≡ rule_cmp rule.now other.now }
{
    let by_priority = rule.priority.cmp(&other.priority);
    if by_priority.is_ne() {
        return by_priority;
    }
    bytes_of(&rule.of).cmp(&bytes_of(&other.of))
}

/// The rules in the order of `compare_rules`.
///
/// # Errors
///
/// `NoMemory`.
pub fn in_order(rules: Vec<Rule>) -> Result<Vec<Rule>, NoMemory>
    ensures { IfOk result (λ ordered. ArePut rules.items ordered.items) }
{
    let mut rules = rules;
    rules.sort_by(|rule, other| compare_rules(rule, other))?;
    Ok(rules)
}
