// The rules of a tree.
ghost use Rattle.std.specs.Prelude.{◌≤◌, OnOk};
ghost use Rattle.priority_plan.specs.Rules.{level_limit, levels_of};

use crate::places::push_comma;
use case_text::{CaseStop, Words};
use case_values::push_rule;
use maple_base::Rule;
use priority_plan::{chain, levels};
use rule_builder::{rules, rules_where};
use std::alloc::Global;
use topo_paths::Scene;
use trace_tree::Tree;

/// facts?, barriers?, chain?, current_facts?, current_barriers?: the facts or the barriers of the rules of a tree, or rules that
/// show that no fewer priorities do, the lowest first; `current_`, of those that the tree has once the traces are gone of which
/// a cell has changed.
pub fn tell_rules(
    alloc: Global,
    tree: &Tree,
    scene: &Scene,
    asked: &str,
    out: &mut String,
) -> Result<(), CaseStop> {
    has_room(tree)?;
    match asked {
        "facts?" => push_rules(rules(alloc, tree)?.facts(), out),
        "barriers?" => push_rules(rules(alloc, tree)?.barriers(), out),
        "chain?" => push_rules(chain(alloc, tree)?.items(), out),
        "current_facts?" => push_rules(rules_where(alloc, tree, scene)?.facts(), out),
        "current_barriers?" => push_rules(rules_where(alloc, tree, scene)?.barriers(), out),
        _ => Err(CaseStop::Unread),
    }
}

/// falling? PRIORITY ADDRESS: of how many barriers in their order the priority is one more, and the
/// source address one less than that of the barrier before, from these on; and of how many in all.
pub fn count_falling(
    alloc: Global,
    tree: &Tree,
    mut words: Words<'_>,
    out: &mut String,
) -> Result<(), CaseStop> {
    let priority = words.number_u16()?;
    let address = words.number()?;
    has_room(tree)?;
    let list = rules(alloc, tree)?;
    let count = falling(list.barriers(), priority, address);
    Ok(write!(out, "{count} of {}", list.barriers().len())?)
}

fn falling(barriers: &[Rule], first: u16, highest: u64) -> u64 {
    let mut count = 0u64;
    let mut priority = first;
    let mut address = highest;
    for barrier in barriers {
        if barrier.priority != priority || barrier.of.dl_src != Some(address) {
            break;
        }
        count = count.saturating_add(1);
        priority = priority.saturating_add(1);
        address = address.saturating_sub(1);
    }
    count
}

// The rules, with commas between them, or `none`.
fn push_rules(rules: &[Rule], out: &mut String) -> Result<(), CaseStop> {
    if rules.is_empty() {
        out.push_str("none")?;
    }
    for rule in rules {
        push_comma(out)?;
        push_rule(rule, out)?;
    }
    Ok(())
}

// Whether the rules of a tree can be made.
fn has_room(tree: &Tree) -> Result<(), CaseStop>
    ensures { OnOk result (levels_of tree.now ≤ level_limit) }
{
    if levels(tree) <= 65_000 {
        Ok(())
    } else {
        Err(CaseStop::Unread)
    }
}
