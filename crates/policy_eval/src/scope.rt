// The names in force.
ghost use Rattle.std.specs.Prelude.{◌≡◌, ◌-◌, [], ◌∷◌, drop, length, OnOk, OnErr};
ghost use Rattle.std.specs.List.{position};
ghost use Rattle.policy_meaning.specs.Values.{named, assigned};
ghost use Rattle.policy_eval.specs.Data.{datum_of};
ghost use Rattle.policy_eval.specs.Scopes.{is_named};

use crate::datum::Datum;
use maple_base::{Name, NoMemory};
use std::alloc::Global;
use std::collections::VecDeque;
use std::marker::Model;

/// The names in force and what they stand for.
#[derive(Drop)]
pub struct Scope {
    // The last declared stands first.
    names: VecDeque<(Name, Datum)>,
}

impl Model for Scope {
    ghost use Rattle.policy_meaning.specs.Values.{Scope as Names};
    ghost use Rattle.policy_eval.specs.Scopes.{in_force};

    ghost Value = { Names };

    ghost view = { λ a. in_force a.names.items };
}

// The first place of a name.
fn place_of(names: &VecDeque<(Name, Datum)>, name: &Name) -> Option<usize>
    ensures { result ≡ position (is_named name.now) names.now.items }
{
    names.iter().position(|entry| entry.0.text() == name.text())
}

impl Scope {
    /// No name is in force.
    pub fn new(alloc: Global) -> Scope
        ensures { result ≡ [] }
    {
        let names = VecDeque::new(alloc);
        Scope { names }
    }

    /// How many names are in force.
    pub fn len(&self) -> usize
        ensures { result ≡ length self.now }
    {
        self.names.len()
    }

    /// What the name that was declared last of its like stands for, or 0 where it isn't in force.
    #[tactic(auto, using(crate::proofs::Places::named_here, crate::proofs::Places::named_nowhere))]
    pub fn named(&self, name: &Name) -> Datum
        ensures { datum_of result ≡ named name.now self.now }
    {
        match place_of(&self.names, name) {
            Some(place) => self.names[place].1,
            None => Datum::Number(0),
        }
    }

    /// Declares a name.
    pub fn declare(&mut self, name: Name, datum: Datum) -> Result<(), NoMemory>
        ensures declared { OnOk result (self.new ≡ (name, datum_of datum) ∷ self.old) }
        ensures err { OnErr result (self.new ≡ self.old) }
    {
        self.names.push_front((name, datum))?;
        Ok(())
    }

    /// Gives the name that was declared last of its like another value; does nothing where it isn't in force.
    #[tactic(auto, using(crate::proofs::Places::assigned_here, crate::proofs::Places::assigned_nowhere))]
    pub fn assign(&mut self, name: &Name, datum: Datum)
        ensures { self.new ≡ assigned name.now (datum_of datum) self.old }
    {
        if let Some(place) = place_of(&self.names, name) {
            self.names[place].1 = datum;
        }
    }

    /// Keeps as many names as this, those that were declared first.
    #[tactic(auto, using(crate::proofs::Places::kept_first))]
    pub fn truncate(&mut self, len: usize)
        ensures { self.new ≡ drop (length self.old - len) self.old }
    {
        let newer = self.names.len().saturating_sub(len);
        self.names.drain(..newer);
    }
}
