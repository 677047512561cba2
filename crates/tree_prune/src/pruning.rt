// Which traces an environment has left behind, and how they leave a tree.
ghost use Rattle.std.specs.Prelude.{◌≡◌, ◌+◌, find, is_none, option_copied};
ghost use Rattle.trace_tree.specs.Growth.{leaves_of};
ghost use Rattle.trace_tree.specs.Kept.{kept};
ghost use Rattle.trace_tree.specs.Stands.{StandsForRest};
ghost use Rattle.tree_prune.specs.Current.{same_value, is_current};
ghost use Rattle.tree_prune.specs.Stale.{differs, stale_in, stale_of};

use maple_base::{Cell, EnvNow, Value};
use trace_tree::{Leaf, Tree};

/// Removes the leaves of which a recorded cell has another value now. Tells how many.
pub fn prune<E: EnvNow>(tree: &mut Tree, env: &E) -> u32
    ensures kept { tree.new ≡ kept (is_current (E.has env.now)) tree.old }
    ensures stands { StandsForRest (is_current (E.has env.now)) tree.old tree.new }
    ensures counted { leaves_of tree.new + result ≡ leaves_of tree.old }
{
    tree.retain(|leaf| is_current(leaf, env))
}

/// Whether each recorded cell of a leaf has its recorded value now.
pub fn is_current<E: EnvNow>(leaf: &Leaf, env: &E) -> bool
    ensures { result ≡ is_current (E.has env.now) leaf.now }
{
    stale(leaf, env).is_none()
}

/// The first recorded cell of a leaf that has another value now, with the recorded value and the one
/// of now. `None` where the leaf is current.
pub fn stale<E: EnvNow>(leaf: &Leaf, env: &E) -> Option<(Cell, Value, Value)>
    ensures first { result ≡ stale_of (E.has env.now) leaf.now }
    ensures none { is_none result ≡ is_current (E.has env.now) leaf.now }
{
    stale_in(leaf.cells.items(), env)
}

fn stale_in<E: EnvNow>(cells: &[(Cell, Value)], env: &E) -> Option<(Cell, Value, Value)>
    ensures { result ≡ stale_in (E.has env.now) cells.now }
{
    let (cell, recorded) = first_changed(cells, env)?;
    Some((*cell, *recorded, env.cell(*cell)))
}

fn first_changed<'a, E: EnvNow>(cells: &'a [(Cell, Value)], env: &E) -> Option<&'a (Cell, Value)>
    ensures { option_copied result ≡ find (differs (E.has env.now)) cells.now }
{
    cells.iter().find(|entry| differs(entry, env))
}

fn differs<E: EnvNow>(entry: &(Cell, Value), env: &E) -> bool
    ensures { result ≡ differs (E.has env.now) entry.now }
{
    !is_same(env.cell(entry.0), entry.1)
}

fn is_same(value: Value, other: Value) -> bool
    ensures { result ≡ same_value value other }
{
    value == other
}
