// The rules of a tree of traces.
ghost use Rattle.std.specs.Prelude.{◌≡◌, ◌+◌, ◌≤◌, ◌++◌, map, filter_map, IfOk, OnOk};
ghost use Rattle.std.specs.List.Sorted.{IsPermutation};
ghost use Rattle.of10_codec.specs.RuleOrder.{AreInOrder};
ghost use Rattle.maple_base.specs.Keys.{anything};
ghost use Rattle.trace_tree.specs.TreeOf.{tree_of, branches_of};
ghost use Rattle.trace_tree.specs.Bounds.{IsWithin, AreWithin};
ghost use Rattle.trace_tree.specs.Kept.{kept};
ghost use Rattle.trace_tree.specs.Shape.{Ends};
ghost use Rattle.tree_prune.specs.Current.{is_current};
ghost use Rattle.priority_plan.specs.Rules.{level_limit, levels_of, most_levels, with_barrier, barrier_behind, rows_of, rows_in, fact_of, barrier_of, facts_of, barriers_of};
ghost use Rattle.priority_plan.specs.Emptied.{emptied, emptied_in};
ghost use Rattle.priority_plan.specs.declared.rows.Row.TheVariants.{Barrier};

use crate::current::Current;
use maple_base::{EnvNow, Field, Match, NoMemory, Rule, RuleList};
use of10_codec::in_order;
use priority_plan::{EveryLeaf, Row, WhichLeaves, barrier, fact, node_levels_where};
use std::alloc::Global;
use trace_tree::{Leaf, Node, Tree};

/// The rules of a tree, facts and barriers each in the order of `compare_rules`.
///
/// # Errors
///
/// `NoMemory`.
pub fn rules(alloc: Global, tree: &Tree) -> Result<RuleList, NoMemory>
    requires room { levels_of tree.now ≤ level_limit }
    ensures facts { IfOk result (λ list. IsPermutation (facts_of tree.now anything 0) list.facts) }
    ensures facts_order { IfOk result (λ list. AreInOrder list.facts) }
    ensures barriers { IfOk result (λ list. IsPermutation (barriers_of tree.now anything 0) list.barriers) }
    ensures barriers_order { IfOk result (λ list. AreInOrder list.barriers) }
{
    parted(alloc, &all_rows(alloc, tree)?)
}

/// The rules that the tree has once the traces of which a recorded cell has another value in `env`
/// are gone, facts and barriers each in the order of `compare_rules`.
///
/// # Errors
///
/// `NoMemory`.
pub fn rules_where<E: EnvNow>(alloc: Global, tree: &Tree, env: &E) -> Result<RuleList, NoMemory>
    requires room { levels_of tree.now ≤ level_limit }
    ensures facts { IfOk result (λ list. IsPermutation (facts_of (kept (is_current (E.has env.now)) tree.now) anything 0) list.facts) }
    ensures facts_order { IfOk result (λ list. AreInOrder list.facts) }
    ensures barriers { IfOk result (λ list. IsPermutation (barriers_of (kept (is_current (E.has env.now)) tree.now) anything 0) list.barriers) }
    ensures barriers_order { IfOk result (λ list. AreInOrder list.barriers) }
{
    parted(alloc, &current_rows(alloc, tree, env)?)
}

// The facts and the barriers of these rows.
fn parted(alloc: Global, rows: &[Row]) -> Result<RuleList, NoMemory>
    ensures facts { IfOk result (λ list. IsPermutation (filter_map fact_of rows.now) list.facts) }
    ensures facts_order { IfOk result (λ list. AreInOrder list.facts) }
    ensures barriers { IfOk result (λ list. IsPermutation (filter_map barrier_of rows.now) list.barriers) }
    ensures barriers_order { IfOk result (λ list. AreInOrder list.barriers) }
{
    let facts = in_order(facts_among(alloc, rows)?)?;
    let barriers = in_order(barriers_among(alloc, rows)?)?;
    Ok(RuleList::new(facts, barriers))
}

fn facts_among(alloc: Global, rows: &[Row]) -> Result<Vec<Rule>, NoMemory>
    ensures { IfOk result (λ facts. facts.items ≡ filter_map fact_of rows.now) }
{
    Ok(rows.iter().filter_map(|row| row.fact()).collect(alloc)?)
}

fn barriers_among(alloc: Global, rows: &[Row]) -> Result<Vec<Rule>, NoMemory>
    ensures { IfOk result (λ barriers. barriers.items ≡ filter_map barrier_of rows.now) }
{
    Ok(rows.iter().filter_map(|row| row.barrier()).collect(alloc)?)
}

#[tactic(auto, using(priority_plan::proofs::Shrinks::emptied_every))]
fn all_rows(alloc: Global, tree: &Tree) -> Result<Vec<Row>, NoMemory>
    requires room { levels_of tree.now ≤ level_limit }
    ensures { IfOk result (λ rows. rows.items ≡ rows_of tree.now anything 0) }
{
    rows(alloc, tree, &EveryLeaf)
}

// The rules that a tree has once the traces are gone that are not current.
#[tactic(auto, using(priority_plan::proofs::Shrinks::rows_emptied))]
fn current_rows<E: EnvNow>(alloc: Global, tree: &Tree, env: &E) -> Result<Vec<Row>, NoMemory>
    requires room { levels_of tree.now ≤ level_limit }
    ensures { IfOk result (λ rows. rows.items ≡ rows_of (kept (is_current (E.has env.now)) tree.now) anything 0) }
{
    rows(alloc, tree, &Current { env })
}

// The rules of a tree of which only some leaves count.
#[tactic(auto, using(priority_plan::proofs::Shrinks::emptied_less))]
fn rows<W: WhichLeaves>(alloc: Global, tree: &Tree, which: &W) -> Result<Vec<Row>, NoMemory>
    requires room { levels_of tree.now ≤ level_limit }
    ensures { IfOk result (λ rows. rows.items ≡ rows_of (emptied (W.counted which.now) tree.now) anything 0) }
{
    let mut rows = Vec::new(alloc);
    let root = tree.root();
    let levels = node_levels_where(root, which);
    let any = Match::any();
    push_rows(root, which, levels, &any, 0, &mut rows)?;
    Ok(rows)
}

// Adds the rules of a node that takes so many levels above the base.
#[cycle(rows)]
fn push_rows<W: WhichLeaves>(
    node: &Node,
    which: &W,
    levels: u64,
    of: &Match,
    base: u64,
    rows: &mut Vec<Row>,
) -> Result<(), NoMemory>
    requires levels { levels ≡ levels_of (emptied (W.counted which.now) (tree_of node.now)) }
    requires values { IsWithin (tree_of node.now) }
    requires room { base + levels ≤ level_limit }
    ensures { OnOk result (rows.new.items ≡ rows.old.items ++ rows_of (emptied (W.counted which.now) (tree_of node.now)) of.now base) }
{
    let mut node = node;
    let mut left = levels;
    loop {
        match node {
            Node::Empty => return Ok(()),
            Node::Leaf(leaf) => return push_fact(leaf, which, of, base, rows),
            Node::Values { field, children } => {
                return push_all(children, which, *field, of, base, rows);
            }
            Node::Test {
                field,
                value,
                no,
                yes,
            } => {
                let above = node_levels_where(yes, which);
                let behind = left - above;
                let below = behind.saturating_sub(1);
                let within = of.fixing(*field, *value);
                push_rows(yes, which, above, &within, base + behind, rows)?;
                push_barrier(below, &within, base, rows)?;
                left = below;
                node = no;
            }
        }
    }
}

#[cycle(rows)]
fn push_all<W: WhichLeaves>(
    children: &[(u64, Node)],
    which: &W,
    field: Field,
    of: &Match,
    base: u64,
    rows: &mut Vec<Row>,
) -> Result<(), NoMemory>
    requires values { AreWithin field (branches_of children.now) }
    requires room { base + most_levels (emptied_in (W.counted which.now) (branches_of children.now)) ≤ level_limit }
    ensures { OnOk result (rows.new.items ≡ rows.old.items ++ rows_in (emptied_in (W.counted which.now) (branches_of children.now)) field of.now base) }
{
    for child in children {
        let within = of.fixing(field, child.0);
        let levels = node_levels_where(&child.1, which);
        push_rows(&child.1, which, levels, &within, base, rows)?;
    }
    Ok(())
}

// Adds the rule of a trace, if it counts.
fn push_fact<W: WhichLeaves>(
    leaf: &Leaf,
    which: &W,
    of: &Match,
    base: u64,
    rows: &mut Vec<Row>,
) -> Result<(), NoMemory>
    requires { base + levels_of (emptied (W.counted which.now) (Ends leaf.now)) ≤ level_limit }
    ensures { OnOk result (rows.new.items ≡ rows.old.items ++ rows_of (emptied (W.counted which.now) (Ends leaf.now)) of.now base) }
{
    if which.counts(leaf) {
        rows.push(Row::Fact(fact(leaf, of, base)))?;
    }
    Ok(())
}

// Adds the barrier behind a false side of so many levels, if it has any.
fn push_barrier(below: u64, of: &Match, base: u64, rows: &mut Vec<Row>) -> Result<(), NoMemory>
    requires { base + with_barrier below ≤ level_limit }
    ensures { OnOk result (rows.new.items ≡ rows.old.items ++ map Barrier (barrier_behind below of.now base)) }
{
    if below > 0 {
        rows.push(Row::Barrier(barrier(of, base + below + 1)))?;
    }
    Ok(())
}
