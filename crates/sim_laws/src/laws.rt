// What holds of all deeds.
ghost use Rattle.sim_laws.specs.Laws.{AgreeLaw, HistoryLaw, PastLaw, ReportLaw, WorldLaw};

use machine_moves::{growth_laws, sends_law, session_laws};
use machine_steps::machine_laws;
use of10_codec::codec_laws;
use world_right::run_laws;
use world_steps::world_laws;

/// The machine's turns are a legal history, whose report is what was taken and the lines that wait.
/// Each device agrees with the deeds.
pub fn agreeing_laws()
    ensures history { HistoryLaw }
    ensures report { ReportLaw }
    ensures agree { AgreeLaw }
{
    growth_laws();
    machine_laws();
    session_laws();
}

/// A bench has the machine's turns of the deeds behind those that it had.
pub fn past_law()
    ensures { PastLaw }
{}

/// Where each device keeps the specification of a switch, the deeds are a run of the world, which is
/// right.
pub fn world_law()
    ensures { WorldLaw }
{
    codec_laws();
    growth_laws();
    machine_laws();
    run_laws();
    sends_law();
    world_laws();
}
