// What holds of the meaning of each policy.
ghost use Rattle.policy_meaning.specs.PolicyLaws.{AsksWithinBudget, BeginsHere, DecidesPorts, KeepsDecisions};

/// What a policy means, for each body, budget and switch: where cells have values of their kinds, a path
/// that is decided begins at the switch, and each port that is decided is in 1 to 65,280 or flood's alone;
/// the packet is asked at most as many questions as there are steps; with more steps a decision stays the
/// same.
pub fn meaning_laws()
    ensures begins { BeginsHere }
    ensures ports { DecidesPorts }
    ensures few { AsksWithinBudget }
    ensures budget { KeepsDecisions }
{}
