// A view over a hall: each read is a ReadCell of its pass.
ghost use Rattle.std.specs.Prelude.{◌≡◌, ℕ, ◌<◌, ◌^◌, ◌∷◌, [], List};
ghost use Rattle.atomic_table.specs.Seated.{TableId};
ghost use Rattle.history_lock.specs.Passes.{IsPassOf, hall as place, known, number};
ghost use Rattle.packet_workers.specs.Adding.{PassView};
ghost use Rattle.packet_workers.specs.Pieces.{HasRead, HasTold, IsReading, RefusesBy, nothing_seen, viewed};
ghost use Rattle.machine_steps.specs.declared.reply.Reply.TheVariants.{Value as ValueRead};

use core_machine::{Core, Entry, Reply};
use history_lock::{Hall, Pass};
use machine_steps::running_laws;
use maple_base::{Cell, EnvView, Value};
use std::marker::{Brand, Model, PhantomData};
use std::sync::Wait;

/// What a pass knew when a view over it was made, of which hall it is, and by which reference it was lent. Each call picks
/// them, and no callee can change them: so they hold of a view on every way out.
pub trait Start {
    ghost start: { PassView };

    ghost halls: { List TableId };

    ghost name: { ℕ };
}

impl Start for Brand {
    ghost start = { nothing_seen };

    ghost halls = { [] };

    ghost name = { 0 };
}

/// A pass that was lent, given back beside a value.
pub struct Back<'a, T> {
    pub pass: &'a mut Pass<Core>,
    pub value: T,
}

impl<'a, T> Back<'a, T> {
    /// The value alone. The pass is no longer lent.
    pub fn into_value(self) -> T
        ensures value { result ≡ self.entry.value }
        ensures pass { self.exit.0.now ≡ self.entry.pass.now }
    {
        let Back { pass: _pass, value } = self;
        value
    }
}

/// What a policy's run reads cells from: a hall, by a pass that is lent to it. Since the start the pass read cells, and did
/// nothing else. Where the hall is worn the view refuses from then on.
pub struct HallView<'a, R, J: Start> {
    pass: &'a mut Pass<Core>,
    hall: &'a Hall<Core>,
    rt: &'a R,
    asked: u32,
    refusals: u64,
    of: PhantomData<J>,
}

impl<'a, R, J: Start> Model for HallView<'a, R, J> {
    ghost use Rattle.std.specs.Prelude.{◌≡◌};
    ghost use Rattle.std.specs.Coded.{codes};
    ghost use Rattle.core_machine.specs.contracts.machine.Core as machine;
    ghost use Rattle.machine_steps.specs.contracts.entry.Entry as entry;
    ghost use Rattle.machine_steps.specs.contracts.reply.Reply as reply;
    ghost use Rattle.history_lock.specs.Passes.{IsPassOf, hall as place, known};
    ghost use Rattle.packet_workers.specs.Pieces.{ReadsBy, Viewed, viewed};

    ghost Value = { Viewed };

    ghost coded = { Prim.hlevel (codes, machine.the_row.coded, entry.the_row.coded, reply.the_row.coded) };

    ghost view = { λ a. viewed (place a.pass.now) (known a.pass.now) a.refusals };

    ghost invariant = { λ a. IsPassOf a.hall.now a.pass.now × (J.name ≡ a.pass.ghost_name) × ReadsBy J.start J.halls a.refusals a.pass.now };
}

impl<'a, R, J: Start> HallView<'a, R, J> {
    /// The view over a hall, by a pass of it.
    pub fn new(rt: &'a R, hall: &'a Hall<Core>, pass: &'a mut Pass<Core>) -> HallView<'a, R, J>
        requires hall { IsPassOf hall.now pass.now }
        requires start { J.start ≡ known pass.now }
        requires halls { J.halls ≡ place pass.now ∷ [] }
        requires name { J.name ≡ pass.ghost_name }
        requires small { number pass.now < 2 ^ 62 }
        ensures { result ≡ viewed (place pass.old) (known pass.old) 0 }
    {
        HallView {
            pass,
            hall,
            rt,
            asked: 0,
            refusals: 0,
            of: PhantomData,
        }
    }

    /// The pass again, and how many ReadCells were answered.
    pub fn finish(self) -> Back<'a, u32>
        ensures same { viewed (place result.pass.now) (known result.pass.now) self.entry.refusals ≡ self.entry }
        ensures halls { J.halls ≡ place result.pass.now ∷ [] }
        ensures name { J.name ≡ result.pass.ghost_name }
        ensures read { HasRead J.start (known result.pass.now) }
        ensures refuses { RefusesBy self.entry.refusals (number result.pass.now) }
    {
        let HallView {
            pass,
            hall: _,
            rt: _,
            asked,
            refusals: _,
            of: _,
        } = self;
        Back { pass, value: asked }
    }
}

impl<'a, R: Wait, J: Start> EnvView for HallView<'a, R, J> {
    // the replies that the pass got since the start
    ghost gave = { λ view cell value. HasTold J.start view.known cell value };

    ghost refused = { λ view. view.refusals };

    fn read(&mut self, cell: Cell) -> Option<Value> {
        running_laws();
        if self.refusals > 0 {
            self.refusals = self.refusals.saturating_add(1);
            return None;
        }
        match self.hall.call(self.rt, self.pass, Entry::ReadCell(cell)) {
            Ok(reply) => {
                self.asked = self.asked.saturating_add(1);
                Some(value_of(reply))
            }
            Err(_) => {
                self.refusals = 1;
                None
            }
        }
    }

    fn refusals(&self) -> u64 {
        self.refusals
    }
}

// What a ReadCell replied.
fn value_of(reply: Reply) -> Value
    requires reading { IsReading reply }
    ensures { reply ≡ ValueRead result }
{
    match reply {
        Reply::Value(value) => value,
        _ => unreachable!(),
    }
}
