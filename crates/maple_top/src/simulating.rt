// A script is run over devices.
ghost use Rattle.std.specs.Prelude.{◌≡◌, ◌≢◌, ◌+◌, ◌<◌, ◌≤◌, ◌^◌, ℕ, length, map};
ghost use Rattle.command_words.specs.declared.words.Command.{Command};
ghost use Rattle.machine_desk.specs.Crews.{most_workers};
ghost use Rattle.gen_script.specs.Summary.{summary_of};
ghost use Rattle.machine_steps.specs.Sound.{AreInRange};
ghost use Rattle.maple_io.specs.Views.{NoWriteFailed, WriteFailed};
ghost use Rattle.sim_steps.specs.Showing.{AllIdle};
ghost use Rattle.maple_top.specs.Ends.{Ends};
ghost use Rattle.maple_top.specs.Running.{EndsOver, read_texts};

use crate::closing::{conclude, end_of};
use crate::finish::put_text;
use crate::gathered::Gathered;
use crate::status::Status;
use crate::texts::Texts;
use device_port::Device;
use gen_script::summary;
use maple_base::Settings;
use maple_io::Sink;
use packet_workers::Gate;
use policy_lang::Policy;
use sim_driver::SimEnd;
use sim_driver::drive::drive;
use std::alloc::Global;
use std::sync::Wait;
use std::thread::Threads;

/// Runs a script under a policy over all devices, and writes the report as it comes, and the last line.
pub fn simulate<R: Threads + Wait + Sync, D: Device, G: Gate + Sync, O: Sink>(
    rt: &R,
    alloc: Global,
    policy: Policy,
    settings: Settings,
    texts: &Texts<'_>,
    all: &mut [D],
    gate: &G,
    to: &mut O,
) -> Status
    requires ranges { AreInRange settings }
    requires workers { settings.workers ≤ most_workers }
    requires idle { AllIdle (map D.meaning all.old) }
    requires numbers { texts.now.first_line + length texts.now.script.now < 2 ^ 32 }
    ensures run { EndsOver (Command.Sim settings) policy (read_texts texts.now)
        (map D.meaning all.old) (map D.meaning all.new) (O.tells to.old) (O.tells to.new) result }
    ensures no_board { result ≢ Status.BoardFault }
    ensures spared { result ≢ Status.WriteFault → NoWriteFailed (O.tells to.old) (O.tells to.new) }
    ensures fault { result ≡ Status.WriteFault → WriteFailed (O.tells to.old) (O.tells to.new) }
{
    let end = drive(
        rt,
        alloc,
        policy,
        texts.script,
        texts.first_line,
        settings,
        all,
        gate,
        to,
    );
    conclude(alloc, end_of(end), to)
}

/// Runs a script under a policy over all devices, and writes the summary of its report.
pub fn sum_up<R: Threads + Wait + Sync, D: Device, G: Gate + Sync, O: Sink>(
    rt: &R,
    alloc: Global,
    policy: Policy,
    settings: Settings,
    texts: &Texts<'_>,
    all: &mut [D],
    gate: &G,
    to: &mut O,
) -> Status
    requires ranges { AreInRange settings }
    requires workers { settings.workers ≤ most_workers }
    requires idle { AllIdle (map D.meaning all.old) }
    requires numbers { texts.now.first_line + length texts.now.script.now < 2 ^ 32 }
    ensures run { (number : ℕ) → EndsOver (Command.Gen number settings) policy (read_texts texts.now)
        (map D.meaning all.old) (map D.meaning all.new) (O.tells to.old) (O.tells to.new) result }
    ensures no_board { result ≢ Status.BoardFault }
    ensures spared { result ≢ Status.WriteFault → NoWriteFailed (O.tells to.old) (O.tells to.new) }
    ensures fault { result ≡ Status.WriteFault → WriteFailed (O.tells to.old) (O.tells to.new) }
{
    let mut report = Gathered::new(alloc);
    match drive(
        rt,
        alloc,
        policy,
        texts.script,
        texts.first_line,
        settings,
        all,
        gate,
        &mut report,
    ) {
        SimEnd::Done => put_summary(alloc, &report.text, to),
        end => conclude(alloc, end_of(end), to),
    }
}

// Writes the summary of a report.
fn put_summary<O: Sink>(alloc: Global, report: &[u8], output: &mut O) -> Status
    ensures ends { Ends (O.tells output.old) (O.tells output.new) Status.Done (summary_of report.now) result }
    ensures spared { result ≢ Status.WriteFault → NoWriteFailed (O.tells output.old) (O.tells output.new) }
{
    let mut text = Vec::new(alloc);
    let Ok(()) = summary(report, &mut text) else {
        return Status::NoMemory;
    };
    put_text(output, &text, Status::Done)
}
