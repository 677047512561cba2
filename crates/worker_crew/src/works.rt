ghost use Rattle.std.specs.Prelude.{◌≡◌, ◌≤◌, ◌^◌, List, Result, Err, IfSome};
ghost use Rattle.history_lock.specs.declared.view.Event.{Event};
ghost use Rattle.history_lock.specs.Passes.{IsPassOf, known, leads, number, opening, parts};
ghost use Rattle.worker_crew.specs.declared.gave_up.GaveUp.{GaveUp};
ghost use Rattle.worker_crew.specs.declared.gave_up.GaveUp.TheVariants.{Worn};
ghost use Rattle.worker_crew.specs.Tasks.{OneWork, Worked};

use crate::gave_up::GaveUp;
use history_lock::{Hall, Machine, Pass};
use std::sync::Wait;

/// What workers do with an item, at a machine.
pub trait Works<M: Machine, T> {
    /// What the machine was when its hall was opened.
    ghost suits: { Self → M → Type 0 };

    /// The calls that come of an item, with their replies, where it was worked and where the worker gave up.
    ghost makes: { Self → T → Worked → List (Event M M.Entry M.Reply) → Type 0 };

    /// Works one item. `Worn` comes only where the hall takes no more calls.
    fn work<R: Wait>(
        &self,
        rt: &R,
        hall: &Hall<M>,
        pass: &mut Pass<M>,
        item: T,
    ) -> Result<(), GaveUp>
        requires hall { IsPassOf hall.now pass.old }
        requires suits { IfSome (opening pass.old) (suits self.now) }
        ensures stays { IsPassOf hall.now pass.new × (opening pass.new ≡ opening pass.old) × (parts pass.new ≡ parts pass.old) }
        ensures leads { leads pass.new ≡ leads pass.old }
        ensures made { OneWork (makes self.now) item result (known pass.old) (known pass.new) }
        ensures worn { result ≡ Err Worn → 2 ^ 62 ≤ number pass.new };
}
