// What follows of a policy's text.
ghost use Rattle.policy_text.specs.TextLaws.{OnePolicy, NodesAgree};
ghost use Rattle.policy_text.specs.Names.{NamesStandThere};

use policy_tree::one_file;

/// A text is that of one policy alone: two policies that have it are one tree.
pub fn one_policy()
    ensures { OnePolicy }
{
    one_file();
}

/// The nodes of a text are as many as those of its tree, and as deep.
pub fn nodes_law()
    ensures { NodesAgree }
{}

/// Each name that a policy declares, by `let` or by what an `if` asks, stands at the token that is told
/// for it.
pub fn names_law()
    ensures { NamesStandThere }
{}
