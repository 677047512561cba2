// Who answers a run's questions.
ghost use Rattle.std.specs.Prelude.{◌≡◌, IfOk, IsTrue};
ghost use Rattle.maple_base.specs.declared.key.Key.{Key};
ghost use Rattle.maple_base.specs.Kinds.{of_kind};
ghost use Rattle.policy_meaning.specs.Leads.{Answer, FieldIs, TestIs, CellIs};
ghost use Rattle.policy_eval.specs.declared.asker.Stop.TheVariants.{Unanswered as NotAnswered};

use maple_base::{Cell, Field, NoMemory, Outcome, Value};
use std::alloc::AllocFailed;

/// A question was not answered, or memory ran out.
#[derive(Clone, Copy, Debug, PartialEq, Eq)]
pub struct Unanswered;

impl From<NoMemory> for Unanswered {
    ghost from_gives = { λ _ _. Unit {0} };

    fn from(_error: NoMemory) -> Unanswered {
        Unanswered
    }
}

/// Who answers a run's questions. What it has become tells what it answered.
pub trait Asker {
    /// The packet's key by which it answers. It stays, also where a question isn't answered.
    ghost key: { Self → Key };

    /// By this answer it went from one state to the other.
    ghost said: { Self → Answer → Self → Type 0 };

    /// The packet's number of a field.
    fn field(&mut self, field: Field) -> Result<u64, Unanswered>
        ensures said { IfOk result (λ value. said self.old (FieldIs field value) self.new) }
        ensures key { key self.new ≡ key self.old };

    /// Whether a field of the packet has a value.
    fn test(&mut self, field: Field, value: u64) -> Result<bool, Unanswered>
        ensures said { IfOk result (λ truth. said self.old (TestIs field value truth) self.new) }
        ensures key { key self.new ≡ key self.old };

    /// What the environment has in a cell, of the cell's kind.
    fn cell(&mut self, cell: Cell) -> Result<Value, Unanswered>
        ensures said { IfOk result (λ value. said self.old (CellIs cell value) self.new) }
        ensures kind { IfOk result (λ value. IsTrue (of_kind cell value)) }
        ensures key { key self.new ≡ key self.old };
}

// Why a part of a run goes no further.
#[derive(Drop)]
pub enum Stop {
    // The run has ended.
    Ended(Outcome),
    // A question was not answered, or memory ran out.
    Unanswered,
}

impl From<Unanswered> for Stop {
    ghost from_gives = { λ _ stop. stop ≡ NotAnswered };

    fn from(_unanswered: Unanswered) -> Stop {
        Stop::Unanswered
    }
}

impl From<NoMemory> for Stop {
    ghost from_gives = { λ _ stop. stop ≡ NotAnswered };

    fn from(_error: NoMemory) -> Stop {
        Stop::Unanswered
    }
}

impl<T: Drop> From<AllocFailed<T>> for Stop {
    ghost from_gives = { λ _ stop. stop ≡ NotAnswered };

    fn from(_error: AllocFailed<T>) -> Stop {
        Stop::Unanswered
    }
}
