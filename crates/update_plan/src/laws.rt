// What a table has while the two batches are carried out.
ghost use Rattle.update_plan.specs.Laws.{ShieldLaw, StepLaw, LengthLaw, SentLaw};

/// In whatever order a switch carries the batches out, and whichever of the changes it refuses, its
/// table is shielded and has room.
pub fn shield_laws()
    ensures shield { ShieldLaw }
    ensures step { StepLaw }
{}

/// How long the batches are, and that what is sent of them is all of them.
pub fn batch_laws()
    ensures lengths { LengthLaw }
    ensures sent { SentLaw }
{}
