// What holds of the words of a command line.
ghost use Rattle.command_words.specs.Grammar.{EachIsRead, NoOtherIsRead};

/// The words that give a command are just those that are written for it.
pub fn grammar_law()
    ensures read { EachIsRead }
    ensures only { NoOtherIsRead }
{}
