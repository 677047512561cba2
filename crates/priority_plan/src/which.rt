// Which traces of a tree count.
ghost use Rattle.std.specs.Prelude.{◌≡◌, Bool, true};
ghost use Rattle.trace_tree.specs.declared.node.Leaf.{Leaf as LeafData};

use trace_tree::Leaf;

/// Tells which leaves of a tree count.
pub trait WhichLeaves {
    /// Those that count.
    ghost counted: { Self → LeafData → Bool };

    /// Whether this one counts.
    fn counts(&self, leaf: &Leaf) -> bool
        ensures { result ≡ counted self.now leaf.now };
}

/// All of them.
pub struct EveryLeaf;

impl WhichLeaves for EveryLeaf {
    ghost counted = { λ w l. true };

    fn counts(&self, _leaf: &Leaf) -> bool {
        true
    }
}
