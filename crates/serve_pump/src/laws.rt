// What holds of the machine and of runs, for a turn.
ghost use Rattle.serve_pump.specs.Beginning.{BeginLaws};
ghost use Rattle.serve_pump.specs.Turning.{TurnLaws};

use machine_moves::growth_laws;
use serve_channels::fresh_law;
use serve_steps::{run_laws, text_laws};

// What texts ask for, what the states are that deeds tell, what the report is, and that the settings stay.
pub(crate) fn turn_laws()
    ensures { TurnLaws }
{
    growth_laws();
    run_laws();
    text_laws();
}

// The same for how a run begins, and what a server keeps that has done nothing yet.
pub(crate) fn begin_laws()
    ensures { BeginLaws }
{
    fresh_law();
    growth_laws();
    run_laws();
}
