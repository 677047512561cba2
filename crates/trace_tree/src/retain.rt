// How traces leave a tree, without memory.
ghost use Rattle.std.specs.Prelude.{◌≡◌, ◌+◌, ◌^◌, ◌<◌};
ghost use Rattle.std.specs.Fn.{FnReturnsAt};
ghost use Rattle.trace_tree.specs.TreeOf.{tree_of, branches_of};
ghost use Rattle.trace_tree.specs.Growth.{leaves_of, leaves_in};
ghost use Rattle.trace_tree.specs.Kept.{is_empty, reads, tests, unwound, IsKept};
ghost use Rattle.trace_tree.specs.Shape.{Ends, Reads, Empty};

use crate::node::{Leaf, Node};
use maple_base::Field;
use std::mem;

// Removes the leaves to which `keep` answers false, and what they leave empty. Tells how many.
// It calls itself for a true side and a value's child alone: each of them fixes one more field. False
// sides are a loop: on the way down each test waits, with the one above it in the place of that side.
#[cycle(retain)]
pub(crate) fn retain<F: Fn(&Leaf) -> bool>(node: &mut Node, keep: &F) -> u32
    requires callable { F.IsAlwaysCallable keep.now }
    requires few { leaves_of (tree_of node.old) < 2 ^ 32 }
    ensures kept { IsKept (FnReturnsAt F.Fn keep.now) (tree_of node.old) (tree_of node.new) }
    ensures counted { leaves_of (tree_of node.new) + result ≡ leaves_of (tree_of node.old) }
{
    let mut waiting = Node::Empty;
    let mut gone = 0;
    loop {
        match mem::replace(node, Node::Empty) {
            Node::Empty => {
                rise(node, waiting);
                return gone;
            }
            Node::Leaf(leaf) => {
                gone += retain_leaf(node, leaf, keep);
                rise(node, waiting);
                return gone;
            }
            Node::Values { field, children } => {
                gone += retain_values(node, field, children, keep);
                rise(node, waiting);
                return gone;
            }
            Node::Test {
                field,
                value,
                mut no,
                mut yes,
            } => {
                gone += retain(&mut *yes, keep);
                *node = mem::replace(&mut *no, waiting);
                waiting = Node::Test {
                    field,
                    value,
                    no,
                    yes,
                };
            }
        }
    }
}

// The same for each child, with what is left of them in an empty place.
#[cycle(retain)]
fn retain_values<F: Fn(&Leaf) -> bool>(
    place: &mut Node,
    field: Field,
    mut children: Vec<(u64, Node)>,
    keep: &F,
) -> u32
    requires callable { F.IsAlwaysCallable keep.now }
    requires few { leaves_in (branches_of children.items) < 2 ^ 32 }
    ensures kept { IsKept (FnReturnsAt F.Fn keep.now) (Reads field (branches_of children.items)) (tree_of place.new) }
    ensures counted { leaves_of (tree_of place.new) + result ≡ leaves_in (branches_of children.items) }
{
    let mut gone = 0;
    let mut at = 0;
    while at < children.len() {
        gone += retain(&mut children[at].1, keep);
        at += 1;
    }
    children.retain(|child| !is_empty(&child.1));
    *place = values(field, children);
    gone
}

// Puts the leaf into an empty place, if it stays.
fn retain_leaf<F: Fn(&Leaf) -> bool>(place: &mut Node, leaf: Leaf, keep: &F) -> u32
    requires callable { F.IsAlwaysCallable keep.now }
    requires empty { tree_of place.old ≡ Empty }
    ensures kept { IsKept (FnReturnsAt F.Fn keep.now) (Ends leaf) (tree_of place.new) }
    ensures counted { leaves_of (tree_of place.new) + result ≡ 1 }
{
    if keep(&leaf) {
        *place = Node::Leaf(leaf);
        0
    } else {
        1
    }
}

// Each test that waits takes its place again, or goes where both its sides are empty.
fn rise(node: &mut Node, mut waiting: Node)
    ensures { tree_of node.new ≡ unwound (tree_of waiting) (tree_of node.old) }
{
    while let Node::Test {
        field,
        value,
        mut no,
        yes,
    } = waiting
    {
        waiting = mem::replace(&mut *no, mem::replace(node, Node::Empty));
        *node = test(field, value, no, yes);
    }
}

fn values(field: Field, children: Vec<(u64, Node)>) -> Node
    ensures { tree_of result ≡ reads field (branches_of children.items) }
{
    if children.is_empty() {
        Node::Empty
    } else {
        Node::Values { field, children }
    }
}

fn test(field: Field, value: u64, no: Box<Node>, yes: Box<Node>) -> Node
    ensures { tree_of result ≡ tests field value (tree_of no.value) (tree_of yes.value) }
{
    if is_empty(&no) && is_empty(&yes) {
        Node::Empty
    } else {
        Node::Test {
            field,
            value,
            no,
            yes,
        }
    }
}

fn is_empty(node: &Node) -> bool
    ensures { result ≡ is_empty (tree_of node.now) }
{
    matches!(node, Node::Empty)
}
