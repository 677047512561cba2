// What holds of the outlines of all tokens.
ghost use Rattle.policy_outline.specs.Limits.{FreePassesNone, OneFault, NoFaultOfFree};

/// Limits and faults: a file is free where it passes no limit at any token; tokens have one first
/// fault; and tokens that have a fault are those of no file that passes no limit.
pub fn outline_laws()
    ensures free { FreePassesNone }
    ensures one { OneFault }
    ensures outline { NoFaultOfFree }
{}
