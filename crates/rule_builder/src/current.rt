// Which traces are current.
ghost use Rattle.std.specs.Prelude.{◌≡◌};
ghost use Rattle.tree_prune.specs.Current.{is_current};

use maple_base::EnvNow;
use priority_plan::WhichLeaves;
use trace_tree::Leaf;
use tree_prune::is_current;

// Those that have in each recorded cell the value that an environment has there.
#[derive(Clone, Copy)]
pub(crate) struct Current<'a, E: EnvNow> {
    pub(crate) env: &'a E,
}

impl<'a, E: EnvNow> WhichLeaves for Current<'a, E> {
    ghost counted = { λ w. is_current (E.has w.env.now) };

    fn counts(&self, leaf: &Leaf) -> bool {
        is_current(leaf, self.env)
    }
}
