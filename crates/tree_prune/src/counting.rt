// How many of a tree's traces are current.
ghost use Rattle.std.specs.Prelude.{◌≡◌, ◌<◌, ◌^◌};
ghost use Rattle.trace_tree.specs.Growth.{leaves_of};
ghost use Rattle.trace_tree.specs.Kept.{kept};
ghost use Rattle.trace_tree.specs.TreeOf.{tree_of, branches_of};
ghost use Rattle.tree_prune.specs.Counts.{leaves_with, leaves_with_in};
ghost use Rattle.tree_prune.specs.Current.{is_current};

use crate::pruning::is_current;
use maple_base::EnvNow;
use trace_tree::{Node, Tree};

/// How many leaves of a tree have in each recorded cell the recorded value now.
#[tactic(auto, using(crate::proofs::Counted::kept_counted, crate::proofs::Counted::few_counted))]
pub fn count_current<E: EnvNow>(tree: &Tree, env: &E) -> u32
    ensures { result ≡ leaves_of (kept (is_current (E.has env.now)) tree.now) }
{
    node_current(tree.root(), env)
}

// Down the false sides in a loop: a path has few other steps, since each of these fixes a field.
#[cycle(counts)]
fn node_current<E: EnvNow>(node: &Node, env: &E) -> u32
    requires { leaves_with (is_current (E.has env.now)) (tree_of node.now) < 2 ^ 32 }
    ensures { result ≡ leaves_with (is_current (E.has env.now)) (tree_of node.now) }
{
    let mut node = node;
    let mut count: u32 = 0;
    loop {
        match node {
            Node::Empty => return count,
            Node::Leaf(leaf) => return count + u32::from(is_current(leaf, env)),
            Node::Values { children, .. } => return count + all_current(children, env),
            Node::Test { no, yes, .. } => {
                count += node_current(yes, env);
                node = no;
            }
        }
    }
}

#[cycle(counts)]
fn all_current<E: EnvNow>(children: &[(u64, Node)], env: &E) -> u32
    requires { leaves_with_in (is_current (E.has env.now)) (branches_of children.now) < 2 ^ 32 }
    ensures { result ≡ leaves_with_in (is_current (E.has env.now)) (branches_of children.now) }
{
    let mut count = 0;
    for child in children {
        count += node_current(&child.1, env);
    }
    count
}
