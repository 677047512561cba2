// What the steps of a switch, and of its session, do to the messages between them.
ghost use Rattle.world_stages.specs.FlightLaws.{StepsKeepTrue, StepsStayClear, StepsFlyOn, HearingKeeps, OthersAreHeard, ClearIsSilent, SignalsAreHeard, OthersAreSent, AllAreTakenOut, PartsDepart, FlightsAgree};

/// What a step of the switch does.
pub fn step_laws()
    ensures keeps { StepsKeepTrue }
    ensures clear { StepsStayClear }
    ensures flies { StepsFlyOn }
{}

/// What hearing a message does.
pub fn hearing_laws()
    ensures keeps { HearingKeeps }
    ensures others { OthersAreHeard }
    ensures silent { ClearIsSilent }
    ensures signals { SignalsAreHeard }
{}

/// What a session's sending does.
pub fn sending_laws()
    ensures others { OthersAreSent }
    ensures taken { AllAreTakenOut }
    ensures departs { PartsDepart }
    ensures agree { FlightsAgree }
{}
