// How a tree goes away without a call for each level.
ghost use Rattle.std.specs.Prelude.{◌+◌, ◌≤◌, IfSome};
ghost use Rattle.trace_tree.specs.TreeOf.{tree_of};
ghost use Rattle.trace_tree.specs.Clears.{load_of, held_of};

use crate::node::Node;
use std::mem;

// Lets go of all nodes. A node whose children are under way waits, with the node above it in the
// place of the child that is under way.
pub(crate) fn clear(mut node: Node) {
    let mut waiting = Node::Empty;
    loop {
        match node {
            Node::Empty | Node::Leaf(_) => {
                let Some((child, left)) = next(waiting) else {
                    return;
                };
                node = child;
                waiting = left;
            }
            Node::Values {
                field,
                mut children,
            } => {
                if let Some((value, child)) = children.pop() {
                    children.push_reserved((value, waiting));
                    waiting = Node::Values { field, children };
                    node = child;
                } else {
                    node = Node::Empty;
                }
            }
            Node::Test {
                field,
                value,
                mut no,
                yes,
            } => {
                node = mem::replace(&mut *no, waiting);
                waiting = Node::Test {
                    field,
                    value,
                    no,
                    yes,
                };
            }
        }
    }
}

// The next child of a node that waits, and what waits then.
fn next(waiting: Node) -> Option<(Node, Node)>
    ensures { IfSome result (λ p. load_of (tree_of p.0) + held_of (tree_of p.1) ≤ held_of (tree_of waiting)) }
{
    match waiting {
        Node::Empty | Node::Leaf(_) => None,
        Node::Values {
            field,
            mut children,
        } => {
            let (value, above) = children.pop()?;
            let Some((_, child)) = children.pop() else {
                return Some((Node::Empty, above));
            };
            children.push_reserved((value, above));
            Some((child, Node::Values { field, children }))
        }
        Node::Test { no, yes, .. } => Some((Box::into_inner(yes), Box::into_inner(no))),
    }
}
