// The rest of the report, as nobody drives the machine any more.
ghost use Rattle.std.specs.Prelude.{◌≡◌, ◌≢◌, Err, IsTrue};
ghost use Rattle.history_lock.specs.Histories.{StartsWith};
ghost use Rattle.history_lock.specs.Passes.{IsPassOf, known, leads, opening, parts, seen};
ghost use Rattle.maple_io.specs.Views.{NoWriteFailed, WriteFailed};
ghost use Rattle.machine_desk.specs.Resting.{RestBy};
ghost use Rattle.machine_desk.specs.declared.report.ReportStop.TheVariants as stops;

use crate::ReportStop;
use crate::laws::desk_laws;
use core_machine::{Core, Entry, Reply};
use history_lock::{Hall, Pass};
use maple_io::{PutStop, Sink, put_all};
use std::sync::Wait;

/// Takes what waits of the report, and writes it, by the pass that leads: for who has all parts of it again, and no desk.
///
/// # Errors
///
/// As `write_report`.
pub fn write_rest<R: Wait, O: Sink>(
    rt: &R,
    hall: &Hall<Core>,
    pass: &mut Pass<Core>,
    out: &mut O,
) -> Result<(), ReportStop>
    requires hall { IsPassOf hall.now pass.old }
    requires leads { IsTrue (leads pass.old) }
    ensures stays { IsPassOf hall.now pass.new × (opening pass.new ≡ opening pass.old) × (parts pass.new ≡ parts pass.old) }
    ensures leads { leads pass.new ≡ leads pass.old }
    ensures later { StartsWith (seen pass.new) (seen pass.old) }
    ensures rest { RestBy result (known pass.old) (known pass.new) (O.tells out.old) (O.tells out.new) }
    ensures failed { result ≡ Err stops.Failed → WriteFailed (O.tells out.old) (O.tells out.new) }
    ensures spared { result ≢ Err stops.Failed → NoWriteFailed (O.tells out.old) (O.tells out.new) }
{
    desk_laws();
    match hall.call(rt, pass, Entry::TakeReport) {
        Ok(Reply::Lines(text)) => match put_all(out, text.items()) {
            Ok(()) => Ok(()),
            Err(PutStop::Failed) => Err(ReportStop::Failed),
            Err(PutStop::NoMemory) => Err(ReportStop::NoMemory),
        },
        Ok(Reply::NoMemory) => Err(ReportStop::NoMemory),
        Ok(_) => unreachable!(),
        Err(_) => Err(ReportStop::Worn),
    }
}
