// What holds of every run of the world.
ghost use Rattle.world_steps.specs.Runs.{HistoryLaw};

/// The machine's turns in a run of the world are a legal history.
pub fn world_laws()
    ensures history { HistoryLaw }
{}
