// What holds of all runs.
ghost use Rattle.serve_steps.specs.Laws.{AllowedAreOthers, AreFronts, EachAsksOnce, EndedIsGiven, EndedStays, FrontStays, GoesOnFrom, HeardIsCut, LastAsks};
ghost use Rattle.serve_steps.specs.Laws.{LinesGoOn, LogGoesOn, NeverSends, NoneHeardBehindEnd, OthersAreFree, RenewsAlike};
ghost use Rattle.serve_steps.specs.Laws.{ReportIsTold, StatesAreTold, TurnsGoOn, WorldsAreRight};
ghost use Rattle.serve_steps.specs.Laws.{OthersStandLast, OthersStayAtRest, OthersStayInBrokenOff, OthersStayInCut, OthersStayInEnd};
ghost use Rattle.serve_steps.specs.Laws.{OthersStayInLastAsked, OthersStayInParts, OthersStayInScript, OthersTakeNothing, OthersTellNothing};
ghost use Rattle.serve_steps.specs.Laws.{TakenStaysInCut, TakenStaysInEnd, TakenStaysInLastAsked};

use board_lines::{control_laws, kept_laws};
use machine_sharing::{between_laws, legal_laws};
use world_right::run_laws as world_run_laws;

/// What was sent to a connection is at every moment a front of what the machine gave for it. Nothing is
/// heard of a connection behind its session's end. The states that deeds tell are the machine's, and what
/// other threads enter may stand where it stands. The report is what was taken of it, and what waits.
pub fn run_laws()
    ensures stays { FrontStays }
    ensures step { AreFronts }
    ensures sends { NeverSends }
    ensures heard { NoneHeardBehindEnd }
    ensures states { StatesAreTold }
    ensures from { GoesOnFrom }
    ensures turns { TurnsGoOn }
    ensures others { AllowedAreOthers }
    ensures free { OthersAreFree }
    ensures report { ReportIsTold }
    ensures log { LogGoesOn }
{}

/// What other threads enter behind all that was done in a run changes nothing of what is said of it: it stands
/// in the newest part, or in the first where that is the only one. Only a packet that waits may then be answered.
pub fn others_laws()
    ensures stand { OthersStandLast }
    ensures parts { OthersStayInParts }
    ensures cut { OthersStayInCut }
    ensures ended { OthersStayInEnd }
    ensures asked { OthersStayInLastAsked }
    ensures script { OthersStayInScript }
    ensures front { OthersStayInBrokenOff }
    ensures rest { OthersStayAtRest }
    ensures take { OthersTakeNothing }
    ensures tell { OthersTellNothing }
{
    between_laws();
    legal_laws();
}

/// Nor does it change what is said of a run that the report is taken once more, behind all that was done.
pub fn taking_laws()
    ensures asked { TakenStaysInLastAsked }
    ensures cut { TakenStaysInCut }
    ensures ended { TakenStaysInEnd }
{}

/// What has ended in a control text stays, whatever comes behind it, and is what its reader gives byte by
/// byte; so each line asks once, and the last one as the text comes to its end. What is kept of a
/// policy's text asks as the whole text does.
pub fn text_laws()
    ensures ended { EndedStays }
    ensures given { EndedIsGiven }
    ensures on { LinesGoOn }
    ensures once { EachAsksOnce }
    ensures last { LastAsks }
    ensures renews { RenewsAlike }
{
    control_laws();
    kept_laws();
}

/// What is heard of an open session is at the end of each part what all the bytes that came on it are
/// cut into, each message once and in order.
pub fn heard_law()
    ensures { HeardIsCut }
{}

/// Each run of the world with the history of what was done is right.
pub fn world_law()
    ensures { WorldsAreRight }
{
    world_run_laws();
}
