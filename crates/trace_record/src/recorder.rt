// The recorder: it answers a run's questions from a key and a view, and notes what was asked.
ghost use Rattle.std.specs.Prelude.{◌≡◌, ◌≤◌, [], IfOk, IsTrue};
ghost use Rattle.maple_base.specs.declared.cells.Cell.{Cell as CellData};
ghost use Rattle.maple_base.specs.declared.cells.Value.{Value as ValueData};
ghost use Rattle.maple_base.specs.Keys.{valid_key};
ghost use Rattle.trace_record.specs.Recorded.{Records, IsRecorded};
ghost use Rattle.trace_record.specs.Since.{IsSince};

use crate::asked_items::AskedItems;
use crate::lent_view::{Back, LentView, Start};
use crate::read_cells::ReadCells;
use maple_base::{Cell, EnvView, Field, Key, Outcome, Value};
use policy_eval::{Asker, Unanswered, run};
use policy_lang::Policy;
use std::alloc::Global;
use std::marker::Brand;

// What was noted of the answers so far, and whether the view refused to tell a cell.
#[derive(Drop)]
pub struct Notes {
    key: Key,
    pub items: AskedItems,
    pub cells: ReadCells,
    pub was_refused: bool,
}

// Answers a run's questions.
pub struct Recorder<'a, V: EnvView, J: Start> {
    view: LentView<'a, V, J>,
    notes: Notes,
}

impl<'a, V: EnvView, J: Start> Asker for Recorder<'a, V, J> {
    ghost key = { λ s. s.notes.key };

    ghost said = { λ s a t. Records s.notes (V.gave s.view) a t.notes (V.gave t.view) };

    fn field(&mut self, field: Field) -> Result<u64, Unanswered> {
        Ok(self.notes.items.ask_field(field, &self.notes.key)?)
    }

    fn test(&mut self, field: Field, value: u64) -> Result<bool, Unanswered> {
        Ok(self.notes.items.ask_test(field, value, &self.notes.key)?)
    }

    fn cell(&mut self, cell: Cell) -> Result<Value, Unanswered> {
        if let Some(value) = self.notes.cells.given(&cell) {
            return Ok(value);
        }
        let Some(value) = self.view.read(cell) else {
            self.notes.was_refused = true;
            return Err(Unanswered);
        };
        self.notes.cells.push(&cell, value)?;
        Ok(value)
    }
}

// Runs a policy on a packet's key and a view that is lent: how it ended, with the notes.
fn walk<'a, V: EnvView, J: Start>(
    alloc: Global,
    policy: &Policy,
    budget: u32,
    switch: u64,
    key: &Key,
    view: &'a mut V,
) -> Back<'a, V, (Result<Outcome, Unanswered>, Notes)>
    requires key { IsTrue (valid_key key.now) }
    requires start { IsSince J.gave J.refused (V.gave view.now) (V.refused view.now) }
    requires name { J.name ≡ view.ghost_name }
    ensures same_reference { result.view.ghost_name ≡ view.entry.ghost_name }
    ensures recorded { IfOk result.value.0 (IsRecorded policy.now budget switch key.now result.value.1 (V.gave result.view.now)) }
    ensures since { IsSince J.gave J.refused (V.gave result.view.now) (V.refused result.view.now) }
{
    let notes = Notes {
        key: *key,
        items: AskedItems::new(alloc),
        cells: ReadCells::new(alloc),
        was_refused: false,
    };
    let view = LentView::<'a, V, J>::new(view);
    let (outcome, recorder) = run(alloc, policy, budget, switch, Recorder { view, notes });
    let Recorder { view, notes } = recorder;
    view.finish((outcome, notes))
}

// The same over a view that goes on to be used: at every end it gives what it gave, and its count is no less.
pub fn walked<V: EnvView>(
    alloc: Global,
    policy: &Policy,
    budget: u32,
    switch: u64,
    key: &Key,
    view: &mut V,
) -> (Result<Outcome, Unanswered>, Notes)
    requires key { IsTrue (valid_key key.now) }
    ensures recorded { IfOk result.0 (IsRecorded policy.now budget switch key.now result.1 (V.gave view.new)) }
    ensures kept { (c : CellData) (v : ValueData) → V.gave view.old c v → V.gave view.new c v }
    ensures count { V.refused view.old ≤ V.refused view.new }
{
    walk::<V, Brand>(alloc, policy, budget, switch, key, view).into_value()
}
