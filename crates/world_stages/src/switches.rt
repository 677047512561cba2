// A step of a switch keeps the stage of its session.
ghost use Rattle.world_stages.specs.StageLaws.{SwitchesKeepStages, OpenedAreLinked};

use crate::flights::step_laws;

/// A step of a switch keeps the stage of its session.
pub fn switch_law()
    ensures { SwitchesKeepStages }
{
    step_laws();
}

/// A session that is opened is in order with its link.
pub fn opening_law()
    ensures { OpenedAreLinked }
{}
