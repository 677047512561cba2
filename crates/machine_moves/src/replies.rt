// What a reply tells.
ghost use Rattle.machine_moves.specs.Told.{EndsAreTold, FreshRunsAnswer, JobsAreTold, NoneElseWaits, OpensAreTold, OthersStay, PolicyIsTold, StatesAreTold};

/// Who drives the machine knows by its replies which sessions are open, which packet waits, when a
/// state is made, and which policy is in force; a run that was recorded just now is answered.
pub fn reply_laws()
    ensures ends { EndsAreTold }
    ensures opens { OpensAreTold }
    ensures others { OthersStay }
    ensures states { StatesAreTold }
    ensures policy { PolicyIsTold }
    ensures jobs { JobsAreTold }
    ensures none { NoneElseWaits }
    ensures fresh { FreshRunsAnswer }
{}
