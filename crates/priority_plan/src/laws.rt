// What holds of the rules of a tree, and of their priorities.
ghost use Rattle.priority_plan.specs.Laws.{NoneLower, BelowLaw, FewLevels, FewMore, KeptHasNoMore};
ghost use Rattle.priority_plan.specs.Chains.{LeastLevels};

/// The priorities of the rules of a tree.
pub fn plan_law()
    ensures lower { NoneLower }
    ensures below { BelowLaw }
    ensures least { LeastLevels }
    ensures few_levels { FewLevels }
    ensures few_more { FewMore }
    ensures kept { KeptHasNoMore }
{}
