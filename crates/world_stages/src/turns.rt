// A turn of the machine keeps the stages of the sessions that stay open.
ghost use Rattle.world_stages.specs.StageLaws.{TurnsKeepStages};

use crate::flights::{hearing_laws, sending_laws};
use crate::updates::update_laws;
use machine_moves::{growth_laws, session_laws};

/// A turn of the machine leads each session that stays open from a stage into a stage.
pub fn turn_law()
    ensures { TurnsKeepStages }
{
    session_laws();
    growth_laws();
    hearing_laws();
    sending_laws();
    update_laws();
}
