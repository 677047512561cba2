// A step along an item, down or back up, without a call for each level.
ghost use Rattle.std.specs.Prelude.{◌≡◌};
ghost use Rattle.std.specs.Bool.{OnTrue, OnFalse};
ghost use Rattle.maple_base.specs.declared.items.Item.TheVariants.{Read, Test};
ghost use Rattle.trace_tree.specs.TreeOf.{tree_of, branches_of};
ghost use Rattle.trace_tree.specs.Growth.{change, child, IsOrdered, AreOrdered};
ghost use Rattle.trace_tree.specs.Walks.{has_branch, leads, behind, put_behind};

use crate::node::{Node, place};
use maple_base::{Field, Item};
use std::mem;

// Where the node has a branch for the item's answer: what stood behind it comes up, and the node goes
// into `other`, with what was there in that place. So the node can wait there, and the same step
// with the two exchanged puts it back.
pub(crate) fn turn(item: &Item, node: &mut Node, other: &mut Node) -> bool
    requires { IsOrdered (tree_of node.old) }
    ensures leads { result ≡ leads item.now (tree_of node.old) }
    ensures node { OnTrue result (tree_of node.new ≡ behind item.now (tree_of node.old)) }
    ensures other { OnTrue result (tree_of other.new ≡ put_behind item.now (tree_of other.old) (tree_of node.old)) }
    ensures same_node { OnFalse result (tree_of node.new ≡ tree_of node.old) }
    ensures same_other { OnFalse result (other.new ≡ other.old) }
{
    match *item {
        Item::Read { field, value } => turn_values(field, value, node, other),
        Item::Test {
            field,
            value,
            outcome,
        } => turn_test(field, value, outcome, node, other),
    }
}

// The same along a value that was read of a field.
fn turn_values(field: Field, value: u64, node: &mut Node, other: &mut Node) -> bool
    requires { IsOrdered (tree_of node.old) }
    ensures leads { result ≡ leads (Read field value) (tree_of node.old) }
    ensures node { OnTrue result (tree_of node.new ≡ behind (Read field value) (tree_of node.old)) }
    ensures other { OnTrue result (tree_of other.new ≡ put_behind (Read field value) (tree_of other.old) (tree_of node.old)) }
    ensures same_node { OnFalse result (tree_of node.new ≡ tree_of node.old) }
    ensures same_other { OnFalse result (other.new ≡ other.old) }
{
    match mem::replace(node, Node::Empty) {
        Node::Values {
            field,
            mut children,
        } => {
            let turned = swap_child(&mut children, value, other);
            *node = Node::Values { field, children };
            if turned {
                mem::swap(node, other);
            }
            turned
        }
        rest => {
            *node = rest;
            false
        }
    }
}

// The same along the answer of a test.
fn turn_test(field: Field, value: u64, outcome: bool, node: &mut Node, other: &mut Node) -> bool
    requires { IsOrdered (tree_of node.old) }
    ensures leads { result ≡ leads (Test field value outcome) (tree_of node.old) }
    ensures node { OnTrue result (tree_of node.new ≡ behind (Test field value outcome) (tree_of node.old)) }
    ensures other { OnTrue result (tree_of other.new ≡ put_behind (Test field value outcome) (tree_of other.old) (tree_of node.old)) }
    ensures same_node { OnFalse result (tree_of node.new ≡ tree_of node.old) }
    ensures same_other { OnFalse result (other.new ≡ other.old) }
{
    match mem::replace(node, Node::Empty) {
        Node::Test {
            field,
            value,
            mut no,
            mut yes,
        } => {
            if outcome {
                mem::swap(&mut *yes, other);
            } else {
                mem::swap(&mut *no, other);
            }
            *node = Node::Test {
                field,
                value,
                no,
                yes,
            };
            mem::swap(node, other);
            true
        }
        rest => {
            *node = rest;
            false
        }
    }
}

// Exchanges the value's child, if there is one, with another node.
fn swap_child(children: &mut Vec<(u64, Node)>, value: u64, other: &mut Node) -> bool
    requires { AreOrdered (branches_of children.old.items) }
    ensures has { result ≡ has_branch value (branches_of children.old.items) }
    ensures child { OnTrue result (tree_of other.new ≡ child value (branches_of children.old.items)) }
    ensures children { OnTrue result (branches_of children.new.items ≡ change value (λ _. tree_of other.old) (branches_of children.old.items)) }
    ensures same_children { OnFalse result (branches_of children.new.items ≡ branches_of children.old.items) }
    ensures same_other { OnFalse result (other.new ≡ other.old) }
{
    match place(children, value) {
        Ok(at) => {
            mem::swap(&mut children[at].1, other);
            true
        }
        Err(_) => false,
    }
}
