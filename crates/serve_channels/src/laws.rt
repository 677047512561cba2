// What holds of the machine and of runs, for a server.
ghost use Rattle.serve_channels.specs.Serving.{ServingLaws};
ghost use Rattle.serve_channels.specs.Starting.{FreshIsKept};

use machine_desk::driving_laws;
use serve_steps::run_laws;

/// What each entry does to the machine's sessions, what its reply tells, and what others leave of it; and where what these do may stand in a run.
pub fn serving_laws()
    ensures { ServingLaws }
{
    driving_laws();
    run_laws();
}

/// A server that has done nothing yet keeps all.
pub fn fresh_law()
    ensures { FreshIsKept }
{}
