// The report is written as it comes.
ghost use Rattle.std.specs.Prelude.{◌≡◌, ◌≢◌, Err, List, OnOk};
ghost use Rattle.maple_io.specs.declared.act.Act.{Act};
ghost use Rattle.maple_io.specs.Views.{NoWriteFailed};
ghost use Rattle.machine_desk.specs.Reports.{ReportsBy};
ghost use Rattle.machine_desk.specs.declared.report.ReportStop.TheVariants as stops;
ghost use Rattle.serve_channels.specs.Delivering.{GoesReporting, IsStill};
ghost use Rattle.serve_channels.specs.Servers.{IsSame};

use crate::{Server, serving_laws};
use machine_desk::ReportStop;
use maple_io::Sink;
use std::sync::Wait;

impl<'h> Server<'h> {
    /// Takes what waits of the report, and writes it.
    ///
    /// # Errors
    ///
    /// As the desk's `write_report`.
    pub fn report<R: Wait, O: Sink>(&mut self, rt: &R, out: &mut O) -> Result<(), ReportStop>
        ensures reports { ReportsBy result self.old.desk self.new.desk (O.tells out.old) (O.tells out.new) }
        ensures goes { OnOk result ((log : List Act) → GoesReporting (O.tells out.old) (O.tells out.new) self.old log self.new log) }
        ensures spared { result ≢ Err stops.Failed → NoWriteFailed (O.tells out.old) (O.tells out.new) }
        ensures still { OnOk result (IsStill self.old → IsStill self.new) }
        ensures rest { self.new ≡ record self.old { desk = self.new.desk } }
        ensures same { IsSame self.old self.new }
    {
        serving_laws();
        self.desk.law();
        self.desk.write_report(rt, out)
    }
}
