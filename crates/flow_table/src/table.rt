ghost use Rattle.std.specs.Prelude.{◌≡◌, ◌≤◌, ◌⊎◌, [], false, length, Contains, IfSome, IfNone};
ghost use Rattle.std.specs.List.{AllPairs};
ghost use Rattle.maple_base.specs.declared.decision.Rule.{Rule};
ghost use Rattle.maple_base.specs.Choice.{Differ, MayChoose, fits};
ghost use Rattle.flow_table.specs.declared.applied.Applied.TheVariants.{Added, NoMemory};
ghost use Rattle.flow_table.specs.Effects.{answer_of};
ghost use Rattle.flow_table.specs.Tables.{Leaves};

use crate::Applied;
use crate::change::{add, delete_all, delete_strict};
use crate::lookup::first_fit;
use maple_base::{Key, Rule, TableMod};
use std::alloc::Global;
use std::marker::Model;

/// The rules of a switch (OpenFlow 1.0, 3.1).
#[derive(Drop)]
pub struct Table {
    rules: Vec<Rule>,
    capacity: u32,
}

impl Model for Table {
    ghost use Rattle.flow_table.specs.Tables.{Entries};
    ghost use Rattle.flow_table.specs.Orders.{IsKept};

    ghost Value = { Entries };

    ghost view = { λ a. record { rules = a.rules.items; capacity = a.capacity } };

    ghost invariant = { λ a. IsKept a.rules.items a.capacity };
}

impl Table {
    /// A table without rules, with room for so many, 0 to 2^32 - 1.
    pub fn new(alloc: Global, capacity: u32) -> Table
        ensures rules { result.rules ≡ [] }
        ensures capacity { result.capacity ≡ capacity }
    {
        Table {
            rules: Vec::new(alloc),
            capacity,
        }
    }

    /// Changes the table (OpenFlow 1.0, 4.6): `Add` puts a rule in, in the place of one of equal
    /// match and priority; `DeleteStrict` removes that rule; `DeleteAll` removes all rules.
    pub fn apply(&mut self, change: &TableMod) -> Applied
        ensures answer { (result ≡ NoMemory) ⊎ (result ≡ answer_of change.now self.old.rules self.old.capacity) }
        ensures memory { result ≡ NoMemory → answer_of change.now self.old.rules self.old.capacity ≡ Added }
        ensures effect { Leaves result change.now self.old self.new }
        ensures capacity { self.new.capacity ≡ self.old.capacity }
    {
        match change {
            TableMod::Add(rule) => add(&mut self.rules, self.capacity, rule),
            TableMod::DeleteStrict { of, priority } => {
                delete_strict(&mut self.rules, of, *priority)
            }
            TableMod::DeleteAll => delete_all(&mut self.rules),
        }
    }

    /// A rule that a switch may choose for a packet: one that fits, so that no other that fits
    /// stands above it (OpenFlow 1.0, 3.4). None where no rule fits.
    pub fn choose(&self, key: &Key) -> Option<&Rule>
        ensures found { IfSome result (λ rule. MayChoose self.now.rules key.now rule.now) }
        ensures none { IfNone result ((rule : Rule) → Contains self.now.rules rule → fits rule key.now ≡ false) }
    {
        first_fit(&self.rules, key)
    }

    /// How many rules the table has.
    pub fn len(&self) -> u32
        ensures count { result ≡ length self.now.rules }
        ensures room { result ≤ self.now.capacity }
        ensures distinct { AllPairs Differ self.now.rules }
    {
        self.rules.len() as u32
    }
}
