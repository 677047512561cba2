// What becomes of the live traces, and of their tree, at one more event.
ghost use Rattle.tree_prune.specs.Laws.{SameIsEqual, NoneBeforeStates, LearnedComesLast, OthersAreNotLearned, RetiredGoes, AllRetiredGo, CurrentStay, OldPolicyGoes, PrunedStands, EmptiedStands, LiveAreOfNow, LiveHaveOwnNumbers};

/// The laws of live traces. A tree that stands for them still does behind each new state, where `prune`
/// follows a change of the environment, and all leaves go with the policy that they were recorded of.
pub fn live_laws()
    ensures same { SameIsEqual }
    ensures before { NoneBeforeStates }
    ensures learned { LearnedComesLast }
    ensures others { OthersAreNotLearned }
    ensures retired { RetiredGoes }
    ensures all_retired { AllRetiredGo }
    ensures current { CurrentStay }
    ensures old_policy { OldPolicyGoes }
    ensures pruned { PrunedStands }
    ensures emptied { EmptiedStands }
    ensures of_now { LiveAreOfNow }
    ensures numbers { LiveHaveOwnNumbers }
{}
