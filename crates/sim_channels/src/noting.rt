// What was done is told to the machine.
ghost use Rattle.std.specs.Prelude.{◌≡◌, IfErr, OnOk};
ghost use Rattle.machine_steps.specs.declared.entry.Entry.TheVariants as entries;
ghost use Rattle.machine_steps.specs.declared.reply.Reply.TheVariants.{Done};
ghost use Rattle.machine_desk.specs.Desks.{Enters};
ghost use Rattle.machine_desk.specs.Orders.{Stops};

use crate::Driver;
use core_machine::{Entry, Note};
use machine_desk::DeskStop;
use std::sync::Wait;

impl<'h> Driver<'h> {
    /// The machine is told what was done.
    ///
    /// # Errors
    ///
    /// As the desk's `ask`.
    pub fn note<R: Wait>(&mut self, rt: &R, note: Note) -> Result<(), DeskStop>
        ensures notes { OnOk result (Enters self.old.desk (entries.Note note) Done self.new.desk) }
        ensures stops { IfErr result (λ stop. Stops stop (entries.Note note) self.old.desk self.new.desk) }
        ensures rest { self.new ≡ record self.old { desk = self.new.desk } }
        ensures footing { self.new.desk.footing ≡ self.old.desk.footing }
    {
        self.desk.ask(rt, Entry::Note(note))?;
        Ok(())
    }
}
