// Recording: what a policy asks of a packet and of its environment, and what it decides.
ghost use Rattle.std.specs.Prelude.{◌≡◌, ◌<◌, ◌≤◌, Err, IfOk, IsTrue};
ghost use Rattle.maple_base.specs.declared.cells.Cell.{Cell as CellData};
ghost use Rattle.maple_base.specs.declared.cells.Value.{Value as ValueData};
ghost use Rattle.maple_base.specs.Counts.{HasRisen};
ghost use Rattle.maple_base.specs.Keys.{valid_key};
ghost use Rattle.policy_eval.specs.Answers.{IsBudget};
ghost use Rattle.policy_meaning.specs.Cells.{AreGiven};
ghost use Rattle.trace_record.specs.Runs.{IsRun, IsOfCall};
ghost use Rattle.trace_record.specs.declared.recording.RecordError.TheVariants.{Unread};

use crate::recorder::walked;
use maple_base::{Cells, EnvView, Items, Key, Outcome, Witness};
use policy_lang::Policy;
use policy_meaning::policy_laws::meaning_laws;
use policy_meaning::question_laws::reading_laws;
use std::alloc::Global;
use std::marker::Model;
use thiserror::Error;

/// A run of a policy: what it asked of its packet and of its environment, with the answers, and what it
/// decided.
#[derive(Drop)]
pub struct Run {
    number: u64,
    switch: u64,
    key: Key,
    items: Items,
    cells: Cells,
    outcome: Outcome,
    budget: u32,
    policy: Witness<Policy>,
}

impl Model for Run {
    ghost use Rattle.trace_record.specs.Runs.{Recorded};
    ghost use Rattle.std.specs.Coded.{codes};
    ghost use Rattle.policy_lang.specs.contracts.Policy as policies;

    ghost Value = { Recorded };

    ghost coded = { Prim.hlevel (codes, policies.the_row.coded) };

    ghost use Rattle.trace_record.specs.RunViews.{recorded, IsLawful};

    ghost view = { recorded };

    ghost invariant = { IsLawful };
}

/// Why a run was not recorded.
#[derive(Clone, Copy, Debug, PartialEq, Eq, Error)]
pub enum RecordError {
    /// The view refused to tell a cell.
    #[error("a cell was not told")]
    Unread,
    /// Memory ran out.
    #[error("out of memory")]
    NoMemory,
}

impl Run {
    /// The number of its policy.
    pub fn number(&self) -> u64
        ensures { result ≡ self.now.number }
    {
        self.number
    }

    /// The switch that its packet came to.
    pub fn switch(&self) -> u64
        ensures { result ≡ self.now.switch }
    {
        self.switch
    }

    /// The key of its packet.
    pub fn key(&self) -> &Key
        ensures { result.now ≡ self.now.key }
    {
        &self.key
    }

    /// What was asked of the packet, with the answers, in order.
    pub fn items(&self) -> &Items
        ensures { result.now ≡ self.now.items }
    {
        &self.items
    }

    /// The cells that were read, with their values, in order.
    pub fn cells(&self) -> &Cells
        ensures { result.now ≡ self.now.cells }
    {
        &self.cells
    }

    /// What was decided.
    pub fn outcome(&self) -> &Outcome
        ensures { result.now ≡ self.now.outcome }
    {
        &self.outcome
    }

    /// What was asked, the cells that were read, and what was decided.
    pub fn into_parts(self) -> (Items, Cells, Outcome)
        ensures items { result.0 ≡ self.items }
        ensures cells { result.1 ≡ self.cells }
        ensures outcome { result.2 ≡ self.outcome }
    {
        (self.items, self.cells, self.outcome)
    }

    /// What holds of each run.
    pub fn law(&self)
        ensures { IsRun self.now }
    {
        let _ = &self.number;
    }
}

/// Runs a policy at a switch on a packet, in at most so many steps, and records what it asks and
/// decides. `Unread` comes exactly where the view refused to tell a cell in this call.
pub fn record<V: EnvView>(
    alloc: Global,
    policy: &Policy,
    number: u64,
    budget: u32,
    switch: u64,
    key: &Key,
    view: &mut V,
) -> Result<Run, RecordError>
    requires key { IsTrue (valid_key key.now) }
    requires budget { IsBudget budget }
    ensures call { IfOk result (λ run. IsOfCall policy.now number budget switch key.now run) }
    ensures given { IfOk result (λ run. AreGiven (V.gave view.new) run.cells) }
    ensures kept { (c : CellData) (v : ValueData) → V.gave view.old c v → V.gave view.new c v }
    ensures count { V.refused view.old ≤ V.refused view.new }
    ensures unread { V.refused view.old < V.refused view.new → result ≡ Err Unread }
    ensures refused { result ≡ Err Unread → HasRisen (V.refused view.old) (V.refused view.new) }
{
    reading_laws();
    meaning_laws();
    let before = view.refusals();
    let (outcome, notes) = walked(alloc, policy, budget, switch, key, view);
    let after = view.refusals();
    let outcome = match outcome {
        _ if before < after => return Err(RecordError::Unread),
        Ok(outcome) => outcome,
        // A count at its end can't rise, so the notes tell.
        Err(_) if notes.was_refused && after == u64::MAX => return Err(RecordError::Unread),
        Err(_) => return Err(RecordError::NoMemory),
    };
    Ok(Run {
        number,
        switch,
        key: *key,
        items: notes.items.into_items(),
        cells: notes.cells.into_cells(),
        outcome,
        budget,
        policy: Witness::of(policy),
    })
}
