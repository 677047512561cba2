// The limits of a machine, and the machine of a policy within them.
ghost use Rattle.std.specs.Prelude.{◌≡◌, IfOk};
ghost use Rattle.machine_steps.specs.Machine.{State};
ghost use Rattle.machine_steps.specs.Sound.{AreInRange};
ghost use Rattle.world_model.specs.Kept.{IsOpening};

use crate::entries::policy_of;
use case_text::{CaseStop, Words};
use core_machine::Core;
use maple_base::{MOST_BUDGET, Settings};
use std::alloc::Global;

/// The settings that the next three words are: `CAPACITY LEVELS BUDGET`.
pub fn settings_of(words: &mut Words<'_>) -> Result<Settings, CaseStop>
    ensures { IfOk result (λ settings. AreInRange settings) }
{
    let capacity = words.number_u32()?;
    let levels = words.number_u32()?;
    let budget = words.number_u32()?;
    settings(capacity, levels, budget)
}

fn settings(capacity: u32, levels: u32, budget: u32) -> Result<Settings, CaseStop>
    ensures { IfOk result (λ settings. AreInRange settings) }
{
    if capacity <= 65_535
        && 1 <= levels
        && levels <= 65_000
        && 1 <= budget
        && budget <= MOST_BUDGET
    {
        Ok(Settings {
            capacity,
            levels,
            budget,
            workers: 0,
        })
    } else {
        Err(CaseStop::Unread)
    }
}

/// A machine with these settings and the policy of a text.
pub fn core_of(alloc: Global, settings: Settings, policy: &str) -> Result<Core, CaseStop>
    requires { AreInRange settings }
    ensures opening { IfOk result (λ core. IsOpening core) }
    ensures settings { IfOk result (λ (core : State). core.settings ≡ settings) }
{
    let policy = policy_of(alloc, policy)?;
    Ok(Core::new(alloc, policy, settings)?)
}
