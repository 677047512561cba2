// How many priorities the rules of a tree take, and how many rules there are.
ghost use Rattle.std.specs.Prelude.{◌≡◌, ◌+◌, ◌^◌, ◌<◌, ◌≤◌};
ghost use Rattle.trace_tree.specs.TreeOf.{tree_of, branches, child_trees};
ghost use Rattle.priority_plan.specs.Rules.{levels_of, most_levels, rules_of, rules_needed};
ghost use Rattle.priority_plan.specs.Counts.{count_of, count_in, capped};
ghost use Rattle.priority_plan.specs.Emptied.{emptied, emptied_in};
ghost use Rattle.priority_plan.specs.Laws.{IsGreatest};

use crate::which::{EveryLeaf, WhichLeaves};
use trace_tree::{Node, Tree};

// How many priorities the rules of a part of a tree take, and how many rules there are, where
// 2^64 - 1 stands for more too.
#[derive(Clone, Copy)]
struct Counts {
    levels: u64,
    rules: u64,
}

const NO_RULES: Counts = Counts {
    levels: 0,
    rules: 0,
};

const ONE_RULE: Counts = Counts {
    levels: 1,
    rules: 1,
};

/// How many priorities the rules of a tree take.
#[tactic(auto, using(crate::proofs::Places::levels_law, crate::proofs::Grows::few_priorities))]
pub fn levels(tree: &Tree) -> u64
    ensures count { result ≡ levels_of tree.now }
    ensures greatest { IsGreatest (rules_of tree.now) result }
{
    node_levels(tree.root())
}

/// How many priorities the rules of a node take.
#[tactic(auto, using(crate::proofs::Shrinks::emptied_every))]
pub fn node_levels(node: &Node) -> u64
    requires { levels_of (tree_of node.now) < 2 ^ 64 }
    ensures { result ≡ levels_of (tree_of node.now) }
{
    node_levels_where(node, &EveryLeaf)
}

/// How many priorities the rules of a node take whose other leaves are left out.
pub fn node_levels_where<W: WhichLeaves>(node: &Node, which: &W) -> u64
    requires { levels_of (emptied (W.counted which.now) (tree_of node.now)) < 2 ^ 64 }
    ensures { result ≡ levels_of (emptied (W.counted which.now) (tree_of node.now)) }
{
    node_counts(node, which).levels
}

/// How many rules a tree has.
#[tactic(auto, using(crate::proofs::Counted::needed_count, crate::proofs::Grows::few_counted, crate::proofs::Grows::few_priorities, crate::proofs::Shrinks::emptied_every))]
pub fn rules_needed(tree: &Tree) -> u64
    ensures { result ≡ rules_needed tree.now }
{
    node_counts(tree.root(), &EveryLeaf).rules
}

// Down the false sides in a loop: a path has few other steps, since each of these fixes a field.
#[cycle(counts)]
fn node_counts<W: WhichLeaves>(node: &Node, which: &W) -> Counts
    requires { levels_of (emptied (W.counted which.now) (tree_of node.now)) < 2 ^ 64 }
    ensures levels { result.levels ≡ levels_of (emptied (W.counted which.now) (tree_of node.now)) }
    ensures rules { result.rules ≡ capped (count_of (emptied (W.counted which.now) (tree_of node.now))) }
{
    let mut node = node;
    let mut counts = NO_RULES;
    // tests since the last rule: their barriers count once a further rule stands on their false side
    let mut waiting: u64 = 0;
    loop {
        match node {
            Node::Leaf(leaf) if which.counts(leaf) => return with_part(counts, waiting, ONE_RULE),
            Node::Empty | Node::Leaf(_) => return counts,
            Node::Values { children, .. } => {
                let all = all_counts(children, which);
                return if all.levels == 0 {
                    counts
                } else {
                    with_part(counts, waiting, all)
                };
            }
            Node::Test { no, yes, .. } => {
                let above = part_counts(yes, which);
                if above.levels == 0 {
                    waiting = waiting.saturating_add(1);
                } else {
                    counts = with_part(counts, waiting, above);
                    waiting = 1;
                }
                node = no;
            }
        }
    }
}

// The same; there are no more levels than rules, and rules only where there are levels.
#[cycle(counts)]
#[tactic(auto, using(crate::proofs::Counted::levels_within, crate::proofs::Counted::no_rules))]
fn part_counts<W: WhichLeaves>(node: &Node, which: &W) -> Counts
    requires { levels_of (emptied (W.counted which.now) (tree_of node.now)) < 2 ^ 64 }
    ensures levels { result.levels ≡ levels_of (emptied (W.counted which.now) (tree_of node.now)) }
    ensures rules { result.rules ≡ capped (count_of (emptied (W.counted which.now) (tree_of node.now))) }
    ensures few { result.levels ≤ result.rules }
    ensures none { result.levels ≡ 0 → result.rules ≡ 0 }
{
    node_counts(node, which)
}

// The greatest levels of the children, which share their priorities, and the rules of all.
#[cycle(counts)]
fn all_counts<W: WhichLeaves>(children: &[(u64, Node)], which: &W) -> Counts
    requires { most_levels (emptied_in (W.counted which.now) (branches (child_trees children.now))) < 2 ^ 64 }
    ensures levels { result.levels ≡ most_levels (emptied_in (W.counted which.now) (branches (child_trees children.now))) }
    ensures rules { result.rules ≡ capped (count_in (emptied_in (W.counted which.now) (branches (child_trees children.now)))) }
    ensures few { result.levels ≤ result.rules }
    ensures none { result.levels ≡ 0 → result.rules ≡ 0 }
{
    let mut levels = 0;
    let mut rules: u64 = 0;
    for child in children {
        let part = part_counts(&child.1, which);
        if levels < part.levels {
            levels = part.levels;
        }
        rules = with_more(rules, 0, part.rules);
    }
    Counts { levels, rules }
}

// With the barriers of so many tests and a part on the false side of them.
fn with_part(counts: Counts, barriers: u64, part: Counts) -> Counts
    requires { counts.levels + (barriers + part.levels) < 2 ^ 64 }
    ensures levels { result.levels ≡ counts.levels + (barriers + part.levels) }
    ensures rules { result.rules ≡ capped (counts.rules + (barriers + part.rules)) }
{
    Counts {
        levels: counts.levels + barriers + part.levels,
        rules: with_more(counts.rules, barriers, part.rules),
    }
}

// With so many barriers and rules more.
fn with_more(rules: u64, barriers: u64, more: u64) -> u64
    ensures { result ≡ capped (rules + (barriers + more)) }
{
    rules.saturating_add(barriers).saturating_add(more)
}
