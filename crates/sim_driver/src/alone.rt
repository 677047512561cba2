// A script is run by a driver that works alone.
ghost use Rattle.std.specs.Prelude.{◌≡◌, ◌≢◌, ◌+◌, ◌^◌, ◌<◌, None, map, length};
ghost use Rattle.maple_io.specs.Views.{NoWriteFailed, WriteFailed};
ghost use Rattle.history_lock.specs.Passes.{IsPassOf, known, parts};
ghost use Rattle.sim_driver.specs.Passes.{DroveFrom, EndsFrom, IsOpeningOver};
ghost use Rattle.sim_driver.specs.Runs.{IsAtRefused, refused_line};

use crate::drive::SimEnd;
use crate::lines::at_desk;
use core_machine::Core;
use device_port::Device;
use history_lock::{Hall, Pass};
use machine_desk::{Desk, Opening, close_hall};
use maple_io::Sink;
use packet_workers::Gate;
use std::alloc::Global;
use std::sync::Wait;

/// Runs the lines of a script over the machine of a hall that was just opened, and devices; then the hall is closed.
pub(crate) fn alone<R: Wait, D: Device, O: Sink, G: Gate>(
    rt: &R,
    alloc: Global,
    hall: Hall<Core>,
    mut pass: Pass<Core>,
    opening: Opening,
    script: &[u8],
    first: u32,
    devices: &mut [D],
    gate: &G,
    to: &mut O,
) -> SimEnd
    requires hall { IsPassOf hall pass }
    requires opened { IsOpeningOver (known pass) opening (map D.meaning devices.old) }
    requires all { parts pass ≡ 1024 }
    requires numbers { first + length script.now < 2 ^ 32 }
    ensures ends { EndsFrom result opening.start.value (map D.meaning devices.old) script.now first (map D.meaning devices.new)
        (O.tells to.old) (O.tells to.new) }
    ensures done { result ≡ SimEnd.Done → refused_line (length devices.old) first script.now ≡ None }
    ensures script { IsAtRefused result (refused_line (length devices.old) first script.now) }
    ensures fault { result ≡ SimEnd.WriteFault → WriteFailed (O.tells to.old) (O.tells to.new) }
    ensures spared { result ≢ SimEnd.WriteFault → NoWriteFailed (O.tells to.old) (O.tells to.new) }
{
    let end = at_pass(
        rt, alloc, &hall, &mut pass, opening, script, first, devices, gate, to,
    )
    .into_end();
    close_hall(hall, pass);
    end
}

// How a run ended, beside the pass that was lent to it.
struct Ended<'p> {
    pass: &'p mut Pass<Core>,
    end: SimEnd,
}

impl<'p> Ended<'p> {
    // The end alone. The pass is no longer lent: whoever lent it has it as it is then.
    fn into_end(self) -> SimEnd
        ensures end { result ≡ self.entry.end }
        ensures pass { self.exit.0.now ≡ self.entry.pass.now }
    {
        let Ended { pass: _pass, end } = self;
        end
    }
}

// Runs the lines of a script at the desk of a hall that was just opened. The pass that was lent comes back.
fn at_pass<'p, R: Wait, D: Device, O: Sink, G: Gate>(
    rt: &R,
    alloc: Global,
    hall: &'p Hall<Core>,
    pass: &'p mut Pass<Core>,
    opening: Opening,
    script: &[u8],
    first: u32,
    devices: &mut [D],
    gate: &G,
    to: &mut O,
) -> Ended<'p>
    requires hall { IsPassOf hall.now pass.now }
    requires opened { IsOpeningOver (known pass.now) opening (map D.meaning devices.old) }
    requires all { parts pass.now ≡ 1024 }
    requires numbers { first + length script.now < 2 ^ 32 }
    ensures same_reference { result.pass.ghost_name ≡ pass.entry.ghost_name }
    ensures hall { IsPassOf hall.now result.pass.now × (parts result.pass.now ≡ parts pass.old) }
    ensures drove { DroveFrom result.end opening.start.value (map D.meaning devices.old) (length devices.old) script.now first
        (map D.meaning devices.new) (known result.pass.now) (O.tells to.old) (O.tells to.new) }
{
    let desk = Desk::new(hall, pass, opening);
    let (desk, _, end) = at_desk(rt, alloc, desk, None, script, first, devices, gate, to);
    let pass = desk.end();
    Ended { pass, end }
}
