// The limits of a run.
ghost use Rattle.std.specs.Prelude.{◌≤◌, IfOk};
ghost use Rattle.machine_steps.specs.Sound.{AreInRange};
ghost use Rattle.machine_desk.specs.Crews.{most_workers};

use case_text::CaseStop;
use machine_desk::MOST_WORKERS;
use maple_base::{MOST_BUDGET, Settings};

/// Those of a command line without options.
pub fn usual() -> Settings {
    Settings {
        capacity: 1_024,
        levels: 32_768,
        budget: 4_096,
        workers: 0,
    }
}

/// These, if a run may have them.
pub fn tested(settings: Settings) -> Result<Settings, CaseStop>
    ensures ranges { IfOk result (λ tested. AreInRange tested) }
    ensures workers { IfOk result (λ tested. tested.workers ≤ most_workers) }
{
    if settings.capacity <= 65_535
        && 1 <= settings.levels
        && settings.levels <= 65_000
        && 1 <= settings.budget
        && settings.budget <= MOST_BUDGET
        && settings.workers <= MOST_WORKERS
    {
        Ok(settings)
    } else {
        Err(CaseStop::Unread)
    }
}
