// The report is written as it comes.
ghost use Rattle.std.specs.Prelude.{◌≡◌, ◌≢◌, Err};
ghost use Rattle.maple_io.specs.Views.{NoWriteFailed};
ghost use Rattle.machine_desk.specs.Reports.{ReportsBy};
ghost use Rattle.machine_desk.specs.declared.report.ReportStop.TheVariants as stops;

use crate::Desk;
use core_machine::{Entry, Reply};
use maple_io::{PutStop, Sink, put_all};
use std::sync::Wait;

/// Why the report was not written, or not whole.
#[derive(Clone, Copy, Debug, PartialEq, Eq)]
pub enum ReportStop {
    /// A write failed.
    Failed,
    /// Memory ran out.
    NoMemory,
    /// The hall is worn.
    Worn,
}

impl<'h> Desk<'h> {
    /// Takes what waits of the report, and writes it.
    ///
    /// # Errors
    ///
    /// `Failed`, a write failed; `NoMemory`; `Worn`.
    pub fn write_report<R: Wait, O: Sink>(&mut self, rt: &R, out: &mut O) -> Result<(), ReportStop>
        ensures reports { ReportsBy result self.old self.new (O.tells out.old) (O.tells out.new) }
        ensures spared { result ≢ Err stops.Failed → NoWriteFailed (O.tells out.old) (O.tells out.new) }
        ensures footing { self.new.footing ≡ self.old.footing }
    {
        match self.enter(rt, Entry::TakeReport) {
            Ok(Reply::Lines(text)) => match put_all(out, text.items()) {
                Ok(()) => Ok(()),
                Err(PutStop::Failed) => Err(ReportStop::Failed),
                Err(PutStop::NoMemory) => Err(ReportStop::NoMemory),
            },
            Ok(Reply::NoMemory) => Err(ReportStop::NoMemory),
            Ok(_) => unreachable!(),
            Err(_) => Err(ReportStop::Worn),
        }
    }
}
