// A script is run.
ghost use Rattle.std.specs.Prelude.{◌≡◌, ◌≢◌, ◌+◌, ◌^◌, ◌<◌, ◌≤◌, None, map, length};
ghost use Rattle.maple_io.specs.Views.{NoWriteFailed, WriteFailed};
ghost use Rattle.machine_steps.specs.Sound.{AreInRange};
ghost use Rattle.sim_steps.specs.Showing.{AllIdle};
ghost use Rattle.machine_desk.specs.Crews.{most_workers};
ghost use Rattle.sim_driver.specs.Runs.{EndsRun, IsAtRefused, over, refused_line};

use crate::alone::alone;
use crate::crewed::crewed;
use crate::lines::deed_laws;
use device_port::Device;
use machine_desk::open_hall;
use maple_base::Settings;
use maple_io::Sink;
use packet_workers::Gate;
use policy_lang::Policy;
use report_text::ScriptRefusal;
use std::alloc::Global;
use std::sync::Wait;
use std::thread::Threads;

/// How a run ends.
#[derive(Clone, Copy, Debug, PartialEq, Eq)]
pub enum SimEnd {
    /// The script came to its end.
    Done,
    /// This line of the script is refused.
    Script { line: u32, kind: ScriptRefusal },
    /// A write failed.
    WriteFault,
    /// Memory ran out.
    NoMemory,
    /// The hall of the machine has room for no further entry: its history has 2^62 of them or more.
    Worn,
}

/// Runs a script over a machine and devices, which stand at places from 1 on, beside as many workers as the settings say.
/// Each packet's work is told to the gate. Behind each line what it brings about is done, but for packets that workers
/// have in hand, and what the report gains by it is written; behind all lines no packet waits. The script's first line has
/// this number. 2^32 devices or more are too many for memory.
pub fn run_sim<R: Threads + Wait + Copy + Send + Sync, O: Sink, G: Gate + Sync>(
    rt: &R,
    alloc: Global,
    policy: Policy,
    script: &[u8],
    first: u32,
    settings: Settings,
    devices: &mut Vec<Box<dyn Device + Send>>,
    gate: &G,
    out: &mut O,
) -> SimEnd
    requires ranges { AreInRange settings }
    requires workers { settings.workers ≤ most_workers }
    requires idle { AllIdle (map meaning devices.old.items) }
    requires numbers { first + length script.now < 2 ^ 32 }
    ensures ends { EndsRun result policy settings (over meaning devices.old) script.now first (over meaning devices.new) (O.tells out.old) (O.tells out.new) }
    ensures done { result ≡ SimEnd.Done → refused_line (length devices.old.items) first script.now ≡ None }
    ensures script { IsAtRefused result (refused_line (length devices.old.items) first script.now) }
    ensures fault { result ≡ SimEnd.WriteFault → WriteFailed (O.tells out.old) (O.tells out.new) }
    ensures spared { result ≢ SimEnd.WriteFault → NoWriteFailed (O.tells out.old) (O.tells out.new) }
{
    drive(
        rt, alloc, policy, script, first, settings, devices, gate, out,
    )
}

/// The same as `run_sim`, over devices of one type.
pub fn drive<R: Threads + Wait + Sync, D: Device, O: Sink, G: Gate + Sync>(
    rt: &R,
    alloc: Global,
    policy: Policy,
    script: &[u8],
    first: u32,
    settings: Settings,
    devices: &mut [D],
    gate: &G,
    to: &mut O,
) -> SimEnd
    requires ranges { AreInRange settings }
    requires workers { settings.workers ≤ most_workers }
    requires idle { AllIdle (map D.meaning devices.old) }
    requires numbers { first + length script.now < 2 ^ 32 }
    ensures ends { EndsRun result policy settings (map D.meaning devices.old) script.now first (map D.meaning devices.new) (O.tells to.old) (O.tells to.new) }
    ensures done { result ≡ SimEnd.Done → refused_line (length devices.old) first script.now ≡ None }
    ensures script { IsAtRefused result (refused_line (length devices.old) first script.now) }
    ensures fault { result ≡ SimEnd.WriteFault → WriteFailed (O.tells to.old) (O.tells to.new) }
    ensures spared { result ≢ SimEnd.WriteFault → NoWriteFailed (O.tells to.old) (O.tells to.new) }
{
    deed_laws();
    let Ok((hall, pass, opening)) = open_hall(alloc, policy, settings) else {
        return SimEnd::NoMemory;
    };
    if settings.workers == 0 {
        return alone(
            rt, alloc, hall, pass, opening, script, first, devices, gate, to,
        );
    }
    crewed(
        rt,
        alloc,
        hall,
        pass,
        opening,
        settings.workers,
        script,
        first,
        devices,
        gate,
        to,
    )
    .into_end()
}
