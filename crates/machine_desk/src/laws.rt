// What holds of the machine and its histories, for the desk and for who drives it.
ghost use Rattle.machine_desk.specs.Arriving.{OthersFindRoom};
ghost use Rattle.machine_desk.specs.Driving.{DeskLaws, DrivingLaws, StagingLaws};
ghost use Rattle.machine_desk.specs.Hearing.{StagesStay};
ghost use Rattle.machine_desk.specs.Laws.{CountIsOfJobs, NothingIsLeft, TendingIsAllowed};
ghost use Rattle.machine_desk.specs.Working.{RoundsArePlain, RoundsClose};

use machine_moves::{growth_laws, reply_laws, sends_law, session_laws};
use machine_sharing::{between_laws, legal_laws, longer_laws};
use machine_steps::machine_laws;

/// What others leave as it is, which histories are legal, and what a reply tells of the policy.
pub fn desk_laws()
    ensures { DeskLaws }
{
    between_laws();
    legal_laws();
    longer_laws();
    reply_laws();
}

/// What the rounds of the work on a packet tell: where memory ran out, and that the packet waits no more.
pub fn working_laws()
    ensures plain { RoundsArePlain }
    ensures close { RoundsClose }
{}

/// How a session stands, others leave as it is, and none of them is told that too many packets wait.
pub fn hearing_laws()
    ensures stay { StagesStay }
    ensures room { OthersFindRoom }
{
    growth_laws();
}

/// What the turns in between were, and how many packets wait behind a count.
pub fn tending_laws()
    ensures allowed { TendingIsAllowed }
    ensures count { CountIsOfJobs }
    ensures none { NothingIsLeft }
{
    between_laws();
    legal_laws();
}

/// What each entry does to the machine, what its reply tells, what the machine sends, and what others leave of it.
pub fn driving_laws()
    ensures { DrivingLaws }
{
    between_laws();
    growth_laws();
    hearing_laws();
    legal_laws();
    machine_laws();
    reply_laws();
    sends_law();
    session_laws();
    working_laws();
}

// Which sessions an entry opens and ends.
pub(crate) fn staging_laws()
    ensures { StagingLaws }
{
    growth_laws();
    legal_laws();
    reply_laws();
}
