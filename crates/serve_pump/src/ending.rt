// What holds of a run that has ended.
ghost use Rattle.serve_pump.specs.EndLaws.{EndingLaws};

use machine_desk::hearing_laws;
use machine_sharing::legal_laws;
use serve_steps::{others_laws, run_laws, taking_laws, world_law};

// What others do behind all that was done changes nothing of what is said of a run, and each run of the world is right.
pub(crate) fn ending_laws()
    ensures { EndingLaws }
{
    hearing_laws();
    legal_laws();
    others_laws();
    run_laws();
    taking_laws();
    world_law();
}
