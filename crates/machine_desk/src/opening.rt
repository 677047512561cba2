// A hall is opened, and the desk in it.
ghost use Rattle.std.specs.Prelude.{◌≡◌, ◌≤◌, IfOk, length};
ghost use Rattle.history_lock.specs.Histories.{AreAllPositions, HasSeenLegal};
ghost use Rattle.history_lock.specs.Passes.{IsPassOf, known, number, own, parts, seen};
ghost use Rattle.machine_sharing.specs.Sharing.{Turns};
ghost use Rattle.machine_steps.specs.Sound.{AreInRange};
ghost use Rattle.machine_desk.specs.Openings.{IsAhead, IsMachineOf};

use core_machine::Core;
use history_lock::{Hall, Pass};
use machine_steps::machine_laws;
use maple_base::{NoMemory, Settings};
use policy_lang::Policy;
use std::alloc::Global;
use std::snapshot::Snapshot;

/// What the desk of a hall is made of, beside a pass that leads in it.
#[derive(Drop)]
pub struct Opening {
    pub start: Snapshot<Core>,
    pub learning: bool,
    pub budget: u32,
}

/// A hall of the machine ahead of its first entry, with this policy and these settings, its one pass, and what its desk is
/// made of.
///
/// # Errors
///
/// `NoMemory`.
pub fn open_hall(
    alloc: Global,
    policy: Policy,
    settings: Settings,
) -> Result<(Hall<Core>, Pass<Core>, Opening), NoMemory>
    requires ranges { AreInRange settings }
    ensures hall { IfOk result (λ r. IsPassOf r.0 r.1) }
    ensures ahead { IfOk result (λ r. IsAhead (known r.1) r.2) }
    ensures parts { IfOk result (λ r. parts r.1 ≡ 1024) }
    ensures machine { IfOk result (λ r. IsMachineOf policy settings r.2) }
{
    machine_laws();
    let learning = policy.learning();
    let budget = settings.budget;
    let core = Core::new(alloc, policy, settings)?;
    let start = Snapshot::of(&core);
    match Hall::open(alloc, core) {
        Ok((hall, pass)) => {
            let opening = Opening {
                start,
                learning,
                budget,
            };
            Ok((hall, pass, opening))
        }
        Err(_) => Err(NoMemory),
    }
}

/// Closes a hall, with the pass that has all parts. What that has seen is a legal history, in which all calls are its own,
/// and which has as many entries as a call read, or more.
pub fn close_hall(hall: Hall<Core>, pass: Pass<Core>)
    requires hall { IsPassOf hall pass }
    requires all { parts pass ≡ 1024 }
    ensures enough { number pass ≤ length (seen pass) }
    ensures legal { HasSeenLegal Turns (known pass) }
    ensures all_own { AreAllPositions (length (seen pass)) (own pass) }
{
    hall.close(pass);
}
