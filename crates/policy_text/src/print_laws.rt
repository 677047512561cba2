// What holds of the printed form of each policy.
ghost use Rattle.policy_text.specs.PrintLaws.{ParenthesesMustStand, NoneCanBeDropped, IsOfGrammar, IsTree, HasNodes, PassesNone, SpelledAsWritten};

/// What is written in the printed form is of the grammar, and its tree is the one that is printed.
/// Parentheses stand exactly where they must: none is missing, and with any pair dropped it is not
/// of the grammar.
pub fn grammar_law()
    ensures parentheses { ParenthesesMustStand }
    ensures dropped { NoneCanBeDropped }
    ensures grammar { IsOfGrammar }
    ensures tree { IsTree }
{}

/// The nodes of what is written are those of the tree, and it passes no limit.
pub fn limit_law()
    ensures nodes { HasNodes }
    ensures limits { PassesNone }
{}

/// Where the printed form has at most 65,536 bytes, nothing is wrong with its bytes, words and
/// signs, and its tokens are those of what is written.
pub fn spelling_law()
    ensures spelled { SpelledAsWritten }
{}
