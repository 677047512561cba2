// An order of a script is followed, and what the report gains by it is written.
ghost use Rattle.std.specs.Prelude.{◌≡◌, ◌≢◌, map, length, Err, OnOk};
ghost use Rattle.maple_io.specs.Views.{NoWriteFailed, WriteFailed};
ghost use Rattle.script_text.specs.Steps.{IsKept as IsKeptStep};
ghost use Rattle.machine_desk.specs.declared.report.ReportStop.TheVariants as stops;
ghost use Rattle.sim_channels.specs.Channels.{IsSame};
ghost use Rattle.machine_desk.specs.Reports.{ReportsBy};
ghost use Rattle.sim_driver.specs.Passes.{IsReady, IsStopped, Passed, ReadyAfter};

use crate::obeying::obey;
use device_port::Device;
use machine_desk::ReportStop;
use maple_io::Sink;
use packet_workers::Gate;
use script_text::Step;
use sim_channels::{Driver, driving_laws, resting_laws};
use std::sync::Wait;

// Does what a step of a script asks for, over all devices, and writes the lines that the report gains.
pub(crate) fn follow<R: Wait, G: Gate, D: Device, O: Sink>(
    rt: &R,
    gate: &G,
    driver: &mut Driver<'_>,
    all: &mut [D],
    step: Step,
    text: &[u8],
    to: &mut O,
) -> Result<(), ReportStop>
    requires ready { IsReady driver.old (map D.meaning all.old) }
    requires step { IsKeptStep (length all.old) step }
    ensures ready { OnOk result (IsReady driver.new (map D.meaning all.new)) }
    ensures follows { Passed result step text.now driver.old (map D.meaning all.old) driver.new (map D.meaning all.new) (O.tells to.old) (O.tells to.new) }
    ensures same { IsSame driver.old driver.new }
    ensures cause { result ≡ Err stops.Failed → WriteFailed (O.tells to.old) (O.tells to.new) }
    ensures spared { result ≢ Err stops.Failed → NoWriteFailed (O.tells to.old) (O.tells to.new) }
{
    driving_laws();
    resting_laws();
    let Ok(()) = obey(rt, gate, driver, all, step, text) else {
        return Err(stopped(driver));
    };
    report(rt, driver, to)
}

// Takes the lines that the report gained, and writes them.
#[tactic(auto, using(crate::proofs::Reporting::ready_after))]
pub(crate) fn report<R: Wait, O: Sink>(
    rt: &R,
    driver: &mut Driver<'_>,
    to: &mut O,
) -> Result<(), ReportStop>
    ensures reports { ReportsBy result driver.old.desk driver.new.desk (O.tells to.old) (O.tells to.new) }
    ensures ready { OnOk result (ReadyAfter driver.old driver.new) }
    ensures rest { driver.new ≡ record driver.old { desk = driver.new.desk } }
    ensures footing { driver.new.desk.footing ≡ driver.old.desk.footing }
    ensures same { IsSame driver.old driver.new }
    ensures cause { result ≡ Err stops.Failed → WriteFailed (O.tells to.old) (O.tells to.new) }
    ensures spared { result ≢ Err stops.Failed → NoWriteFailed (O.tells to.old) (O.tells to.new) }
{
    driving_laws();
    resting_laws();
    driver.write_report(rt, to)
}

// Why it was that the driver stopped.
pub(crate) fn stopped(driver: &Driver<'_>) -> ReportStop
    ensures failed { result ≢ ReportStop.Failed }
    ensures stopped { IsStopped result driver.now }
{
    if driver.is_worn() {
        ReportStop::Worn
    } else {
        ReportStop::NoMemory
    }
}
