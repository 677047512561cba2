// What holds of the tokens of every policy.
ghost use Rattle.policy_tree.specs.Laws.{OneFile};

/// Tokens are those of one file alone, so a text has one reading at most.
pub fn one_file()
    ensures { OneFile }
{}
