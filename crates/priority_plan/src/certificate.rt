// Rules of a tree, each of which must stand below the next.
ghost use Rattle.std.specs.Prelude.{◌≡◌};

use maple_base::Rule;
use std::marker::Model;

/// Rules of a tree, each of which must stand below the next.
#[derive(Drop)]
pub struct Chain {
    list: Vec<Rule>,
}

impl Model for Chain {
    ghost use Rattle.std.specs.Prelude.{List};
    ghost use Rattle.maple_base.specs.declared.decision.Rule.{Rule};

    ghost Value = { List Rule };

    ghost view = { λ a. a.list.items };
}

impl Chain {
    /// These rules, the lowest first.
    pub fn new(list: Vec<Rule>) -> Chain
        ensures { result ≡ list.items }
    {
        Chain { list }
    }

    /// The rules, the lowest first.
    pub fn items(&self) -> &[Rule]
        ensures { result.now ≡ self.now }
    {
        &self.list
    }
}
