// The devices of the program.
ghost use Rattle.std.specs.Prelude.{◌≡◌, ◌++◌, [], ◌∷◌, OnErr, OnOk, map};
ghost use Rattle.model_switch.specs.Meanings.{of_shuffled};
ghost use Rattle.sim_steps.specs.Showing.{AllIdle};
ghost use Rattle.maple_top.specs.Program.{device_at};

use device_port::Device;
use model_switch::Shuffled;
use std::alloc::{AllocError, Global};

/// How many devices the program has.
pub const DEVICES: u64 = 64;

/// The ports of each, from 1 on.
pub const PORTS: u16 = 48;

/// The most rules of each.
pub const MOST_RULES: u32 = 65_535;

/// Puts a device behind others; no message waits in any.
pub fn push_idle<D: Device>(all: &mut Vec<D>, device: D) -> Result<(), AllocError>
    requires others { AllIdle (map D.meaning all.old.items) }
    requires device { (D.meaning device).pending ≡ [] }
    ensures pushed { OnOk result (all.new.items ≡ all.old.items ++ device ∷ []) }
    ensures idle { OnOk result (AllIdle (map D.meaning all.new.items)) }
    ensures kept { OnErr result (all.new.items ≡ all.old.items) }
{
    all.push(device)?;
    Ok(())
}

/// The device of the program at a place, from 1 to `DEVICES`: its datapath id and its seed are the
/// place. No message waits in it.
pub fn program_device(alloc: Global, place: u64) -> Shuffled
    ensures meaning { of_shuffled result ≡ device_at place }
    ensures idle { (of_shuffled result).pending ≡ [] }
{
    Shuffled::new(alloc, place, PORTS, MOST_RULES, place)
}
