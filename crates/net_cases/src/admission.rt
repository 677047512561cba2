// What a trace has to be to be put into a tree.
ghost use Rattle.std.specs.Prelude.{◌≡◌, ◌<◌, ◌≤◌, [], length, IsTrue, IfOk, OnOk, MatchResult};
ghost use Rattle.trace_tree.specs.TreeOf.{branches, child_trees, values_of};
ghost use Rattle.std.specs.List.{list_all, list_any};
ghost use Rattle.maple_base.specs.Questions.{asks_once, field_number, same_field, within_domain};
ghost use Rattle.net_cases.specs.Fixed.{is_new, fixed_behind};
ghost use Rattle.trace_tree.specs.Growth.{admits, place_of, AreOrdered};
ghost use Rattle.trace_tree.specs.Bounds.{items_within};

use case_text::CaseStop;
use maple_base::{Field, Item, Items};
use std::alloc::{AllocError, Global};
use trace_tree::{Node, Trace, Tree};

/// Puts a trace into a tree; where memory runs out at the first try, at the second.
pub fn put(alloc: Global, tree: &mut Tree, trace: Trace) -> Result<(), CaseStop> {
    if !is_trace_for(alloc, tree, &trace.items)? || tree.leaves() >= 1_000 {
        return Err(CaseStop::Unread);
    }
    let number = trace.number;
    let leaves = tree.leaves();
    match tree.augment(trace) {
        Ok(()) => Ok(()),
        Err(back) => {
            if back.number == number && tree.leaves() == leaves && tree.augment(back).is_ok() {
                Ok(())
            } else {
                Err(CaseStop::NoMemory)
            }
        }
    }
}

// Whether a trace of these questions may be put into a tree.
fn is_trace_for(alloc: Global, tree: &Tree, items: &Items) -> Result<bool, AllocError>
    ensures admitted { IfOk result (λ b. IsTrue b → IsTrue (admits items.now tree.now)) }
    ensures within { IfOk result (λ b. IsTrue b → IsTrue (items_within items.now)) }
    ensures once { IfOk result (λ b. IsTrue b → IsTrue (asks_once [] items.now)) }
    ensures short { IfOk result (λ b. IsTrue b → length items.now ≤ 262144) }
{
    let list = items.items();
    let once = asks_once(alloc, list)?;
    Ok(once && leads(tree, list) && are_within(list) && list.len() <= 262_144)
}

#[tactic(auto, using(crate::proofs::Traces::all_within))]
fn are_within(items: &[Item]) -> bool
    ensures { IsTrue result → IsTrue (items_within items.now) }
{
    all_within_domain(items)
}

fn all_within_domain(items: &[Item]) -> bool
    ensures { result ≡ list_all within_domain items.now }
{
    items.iter().all(|item| within_domain(item))
}

fn within_domain(item: &Item) -> bool
    ensures { result ≡ within_domain item.now }
{
    match *item {
        Item::Read { field, value } => field.in_domain(value),
        Item::Test { field, value, .. } => field.in_domain(value),
    }
}

// Whether no item asks of a field that was fixed before it.
fn asks_once(alloc: Global, items: &[Item]) -> Result<bool, AllocError>
    ensures { IfOk result (λ b. IsTrue b → IsTrue (asks_once [] items.now)) }
{
    let mut fixed = Vec::new(alloc);
    for item in items {
        if !is_new(&fixed, item) {
            return Ok(false);
        }
        fix(&mut fixed, item)?;
    }
    Ok(true)
}

// Whether an item's field is not among the fixed ones.
fn is_new(fixed: &[Field], item: &Item) -> bool
    ensures { result ≡ is_new fixed.now item.now }
{
    match *item {
        Item::Read { field, .. } => !is_among(fixed, field),
        Item::Test { field, .. } => !is_among(fixed, field),
    }
}

fn is_among(fields: &[Field], field: Field) -> bool
    ensures { result ≡ list_any (λ one. same_field one field) fields.now }
{
    fields.iter().any(|one| same_field(*one, field))
}

fn same_field(field: Field, other: Field) -> bool
    ensures { result ≡ same_field field other }
{
    field_number(field) == field_number(other)
}

fn field_number(field: Field) -> u8
    ensures { result ≡ field_number field }
{
    match field {
        Field::InPort => 0,
        Field::DlSrc => 1,
        Field::DlDst => 2,
        Field::DlVlan => 3,
        Field::DlType => 4,
        Field::NwTos => 5,
        Field::NwProto => 6,
        Field::NwSrc => 7,
        Field::NwDst => 8,
        Field::TpSrc => 9,
        Field::TpDst => 10,
    }
}

// Puts an item's field ahead of the fixed ones, where its answer fixes it.
fn fix(fixed: &mut Vec<Field>, item: &Item) -> Result<(), AllocError>
    ensures { OnOk result (fixed.new.items ≡ fixed_behind item.now fixed.old.items) }
{
    match *item {
        Item::Read { field, .. } => fixed.insert(0, field)?,
        Item::Test { field, outcome, .. } => {
            if outcome {
                fixed.insert(0, field)?;
            }
        }
    }
    Ok(())
}

// Whether the items were seen to lead to an empty place.
fn leads(tree: &Tree, items: &[Item]) -> bool
    ensures { IsTrue result → IsTrue (admits items.now tree.now) }
{
    let mut node = tree.root();
    for item in items {
        match node {
            Node::Empty => return true,
            Node::Leaf(_) => return false,
            Node::Values { field, children } => {
                let Item::Read {
                    field: asked,
                    value,
                } = *item
                else {
                    return false;
                };
                if !same(asked, *field) {
                    return false;
                }
                match place(children, value) {
                    Ok(at) => node = &children[at].1,
                    Err(_) => return true,
                }
            }
            Node::Test {
                field,
                value,
                no,
                yes,
            } => {
                let Item::Test {
                    field: asked,
                    value: tested,
                    outcome,
                } = *item
                else {
                    return false;
                };
                if !same(asked, *field) || tested != *value {
                    return false;
                }
                node = if outcome { yes } else { no };
            }
        }
    }
    matches!(node, Node::Empty)
}

fn same(field: Field, other: Field) -> bool
    ensures { IsTrue result → field ≡ other }
{
    field == other
}

// Where the value's child stands, or where it would.
fn place(children: &[(u64, Node)], value: u64) -> Result<usize, usize>
    requires { AreOrdered (branches (child_trees children.now)) }
    ensures place { result ≡ place_of value (values_of children.now) }
    ensures bound { MatchResult result (λ at. at < length children.now) (λ at. at ≤ length children.now) }
{
    children.binary_search_by_key(&value, |child| child.0)
}
