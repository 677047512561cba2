// What holds of the tokens of each policy.
ghost use Rattle.policy_grammar.specs.Laws.{ReadsTexts, ReadsBeginnings, ReadsEvents};

/// The grammar and its reader: exactly the tokens of a file are read to the end; exactly the tokens
/// with which some file begins are read at all; and what is read of a file's tokens is what the
/// file's events are.
pub fn grammar_laws()
    ensures texts { ReadsTexts }
    ensures beginnings { ReadsBeginnings }
    ensures events { ReadsEvents }
{}
