// Behind all lines what is left to do is done, and the last of the report is written.
ghost use Rattle.std.specs.Prelude.{◌≡◌, ◌≢◌, true, map, Err, IfErr, OnErr, OnOk, is_some};
ghost use Rattle.maple_io.specs.Views.{NoWriteFailed, WriteFailed};
ghost use Rattle.machine_desk.specs.declared.report.ReportStop.TheVariants as stops;
ghost use Rattle.sim_steps.specs.Stretches.{BreaksOff};
ghost use Rattle.sim_channels.specs.Channels.{IsSame, bench};
ghost use Rattle.sim_driver.specs.Passes.{Finished, IsCaughtUp, IsReady, IsStopped};

use crate::following::{report, stopped};
use device_port::Device;
use machine_desk::ReportStop;
use maple_io::Sink;
use packet_workers::Gate;
use sim_channels::{Driver, driving_laws, resting_laws};
use std::sync::Wait;

/// Behind all lines: beside workers waits until no packet waits, delivers, and writes the lines that the report gained.
pub(crate) fn finish<R: Wait, G: Gate, D: Device, O: Sink>(
    rt: &R,
    gate: &G,
    driver: &mut Driver<'_>,
    all: &mut [D],
    to: &mut O,
) -> Result<(), ReportStop>
    requires ready { IsReady driver.old (map D.meaning all.old) }
    ensures finished { Finished result driver.old (map D.meaning all.old) driver.new (map D.meaning all.new) (O.tells to.old) (O.tells to.new) }
    ensures same { IsSame driver.old driver.new }
    ensures cause { result ≡ Err stops.Failed → WriteFailed (O.tells to.old) (O.tells to.new) }
    ensures spared { result ≢ Err stops.Failed → NoWriteFailed (O.tells to.old) (O.tells to.new) }
{
    resting_laws();
    if driver.works_alone() {
        return Ok(());
    }
    finish_beside(rt, gate, driver, all, to)
}

// Beside workers: waits until no packet waits, delivers, and writes the lines that the report gained.
#[tactic(auto, using(crate::proofs::Reporting::finished_short, crate::proofs::Reporting::finished_by))]
fn finish_beside<R: Wait, G: Gate, D: Device, O: Sink>(
    rt: &R,
    gate: &G,
    driver: &mut Driver<'_>,
    all: &mut [D],
    to: &mut O,
) -> Result<(), ReportStop>
    requires ready { IsReady driver.old (map D.meaning all.old) }
    requires beside { is_some driver.old.crew ≡ true }
    ensures finished { Finished result driver.old (map D.meaning all.old) driver.new (map D.meaning all.new) (O.tells to.old) (O.tells to.new) }
    ensures same { IsSame driver.old driver.new }
    ensures cause { result ≡ Err stops.Failed → WriteFailed (O.tells to.old) (O.tells to.new) }
    ensures spared { result ≢ Err stops.Failed → NoWriteFailed (O.tells to.old) (O.tells to.new) }
{
    driving_laws();
    resting_laws();
    catch_up(rt, gate, driver, all)?;
    report(rt, driver, to)
}

// Waits until no packet waits, and delivers.
fn catch_up<R: Wait, G: Gate, D: Device>(
    rt: &R,
    gate: &G,
    driver: &mut Driver<'_>,
    all: &mut [D],
) -> Result<(), ReportStop>
    requires ready { IsReady driver.old (map D.meaning all.old) }
    ensures caught { OnOk result (IsCaughtUp driver.old (map D.meaning all.old) driver.new (map D.meaning all.new)) }
    ensures broken { OnErr result (BreaksOff (bench driver.old (map D.meaning all.old)) driver.new.desk.past) }
    ensures stopped { IfErr result (λ stop. IsStopped stop driver.new) }
    ensures failed { result ≢ Err stops.Failed }
    ensures same { IsSame driver.old driver.new }
{
    match driver.catch_up(rt, gate, all) {
        Ok(()) => Ok(()),
        Err(_) => Err(stopped(driver)),
    }
}
