// A chain of rules that shows that no fewer priorities than the levels do.
ghost use Rattle.std.specs.Prelude.{◌≡◌, ◌+◌, ◌≤◌, [], ◌∷◌, ◌++◌, length, Contains, OnOk, IfOk};
ghost use Rattle.maple_base.specs.declared.decision.Rule.{Rule as RuleData};
ghost use Rattle.trace_tree.specs.TreeOf.{tree_of, branches_of};
ghost use Rattle.trace_tree.specs.Bounds.{IsWithin, AreWithin};
ghost use Rattle.priority_plan.specs.Rules.{level_limit, levels_of, most_levels, with_barrier, fact, barrier_behind, rules_of, MustStandBelow};
ghost use Rattle.priority_plan.specs.Chains.{EachBelowNext};
ghost use Rattle.priority_plan.specs.Highest.{chain_of, chain_in};

use crate::certificate::Chain;
use crate::counting::node_levels;
use crate::rows::{barrier, fact};
use maple_base::{Field, Match, NoMemory, Rule};
use std::alloc::Global;
use trace_tree::{Leaf, Node, Tree};

/// As many of the tree's rules as it has levels, each of which must stand below the next.
pub fn chain(alloc: Global, tree: &Tree) -> Result<Chain, NoMemory>
    requires room { levels_of tree.now ≤ level_limit }
    ensures long { IfOk result (λ chain. length chain ≡ levels_of tree.now) }
    ensures rules { IfOk result (λ chain. (r : RuleData) → Contains chain r → Contains (rules_of tree.now) r) }
    ensures below { IfOk result (λ chain. EachBelowNext (MustStandBelow tree.now) chain) }
{
    let mut list = Vec::new(alloc);
    let root = tree.root();
    let levels = node_levels(root);
    let any = Match::any();
    push_chain(root, levels, &any, 0, &mut list)?;
    list.reverse();
    Ok(Chain::new(list))
}

// Adds a chain of a node that takes so many levels above the base, the highest rule first.
#[cycle(chain)]
fn push_chain(
    node: &Node,
    levels: u64,
    of: &Match,
    base: u64,
    rules: &mut Vec<Rule>,
) -> Result<(), NoMemory>
    requires levels { levels ≡ levels_of (tree_of node.now) }
    requires values { IsWithin (tree_of node.now) }
    requires room { base + levels_of (tree_of node.now) ≤ level_limit }
    ensures { OnOk result (rules.new.items ≡ rules.old.items ++ chain_of (tree_of node.now) of.now base) }
{
    let mut node = node;
    let mut left = levels;
    loop {
        match node {
            Node::Empty => return Ok(()),
            Node::Leaf(leaf) => return push_fact(leaf, of, base, rules),
            Node::Values { field, children } => {
                return push_highest(children, left, *field, of, base, rules);
            }
            Node::Test {
                field,
                value,
                no,
                yes,
            } => {
                let above = node_levels(yes);
                let behind = left - above;
                let below = behind.saturating_sub(1);
                let within = of.fixing(*field, *value);
                push_chain(yes, above, &within, base + behind, rules)?;
                push_barrier(below, &within, base, rules)?;
                left = below;
                node = no;
            }
        }
    }
}

// Adds that of the first child with the most levels.
#[cycle(chain)]
fn push_highest(
    children: &[(u64, Node)],
    most: u64,
    field: Field,
    of: &Match,
    base: u64,
    rules: &mut Vec<Rule>,
) -> Result<(), NoMemory>
    requires values { AreWithin field (branches_of children.now) }
    requires room { base + most_levels (branches_of children.now) ≤ level_limit }
    ensures { OnOk result (rules.new.items ≡ rules.old.items ++ chain_in (branches_of children.now) most field of.now base) }
{
    for child in children {
        let levels = node_levels(&child.1);
        if levels == most {
            let within = of.fixing(field, child.0);
            return push_chain(&child.1, levels, &within, base, rules);
        }
    }
    Ok(())
}

// Adds the rule of a trace.
fn push_fact(leaf: &Leaf, of: &Match, base: u64, rules: &mut Vec<Rule>) -> Result<(), NoMemory>
    requires { base + 1 ≤ level_limit }
    ensures { OnOk result (rules.new.items ≡ rules.old.items ++ fact leaf.now of.now base ∷ []) }
{
    rules.push(fact(leaf, of, base))?;
    Ok(())
}

// Adds the barrier behind a false side of so many levels, if it has any.
fn push_barrier(below: u64, of: &Match, base: u64, rules: &mut Vec<Rule>) -> Result<(), NoMemory>
    requires { base + with_barrier below ≤ level_limit }
    ensures { OnOk result (rules.new.items ≡ rules.old.items ++ barrier_behind below of.now base) }
{
    if below > 0 {
        rules.push(barrier(of, base + below + 1))?;
    }
    Ok(())
}
