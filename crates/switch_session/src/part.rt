// The parts of an update.
ghost use Rattle.std.specs.Prelude.{◌≡◌};

use maple_base::{Mods, RuleList, Witness};
use std::marker::Model;

/// A part of an update, which leaves with a barrier behind it.
#[derive(Drop)]
pub enum Part {
    /// The table is cleared.
    Clearing,
    /// A batch of changes.
    Batch(Mods),
}

/// The lists from and to which an update leads. Only proofs read them.
#[derive(Drop)]
pub struct UpdateLists {
    from: Witness<RuleList>,
    to: Witness<RuleList>,
}

impl Model for UpdateLists {
    ghost use Rattle.switch_session.specs.Lists.{Lists};

    ghost Value = { Lists };

    ghost view = { λ a. record { from = a.from.value; to = a.to.value } };
}

/// A part whose barrier's reply wasn't heard yet.
#[derive(Drop)]
pub struct UnderWay {
    /// The part clears the table.
    pub clears: bool,
    /// The number of its barrier.
    pub barrier: u32,
    /// The lists of its update.
    pub lists: UpdateLists,
}

impl UpdateLists {
    /// These lists.
    pub fn new(from: &RuleList, to: &RuleList) -> UpdateLists
        ensures { result ≡ record { from = from.now; to = to.now } }
    {
        UpdateLists {
            from: Witness::of(from),
            to: Witness::of(to),
        }
    }
}

impl Part {
    ghost use Rattle.switch_session.specs.Parts.{is_clearing};

    /// Whether the part clears the table.
    pub fn clears(&self) -> bool
        ensures { result ≡ is_clearing self.now }
    {
        matches!(self, Part::Clearing)
    }
}
