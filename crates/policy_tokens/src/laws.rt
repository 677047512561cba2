// What holds of the tokens of every text.
ghost use Rattle.policy_tokens.specs.Laws.{LexemesAreRead, BlanksAddNothing, CommentsAddNothing, LastCommentsAddNothing, LexemesStandThere, WordsDecide, IsFaultless, KeywordsAreRead, SignsAreRead, FieldsAreRead, PacketSwitchIsRead, NamesAreRead, SwitchesAreRead, PortsAreRead};

/// What holds of texts, however they are laid out: words and signs that nothing goes on with stay
/// as they are, blanks and comments add none, each stands where it is said to stand, and the words
/// and signs alone decide which tokens the text has and whether it has a fault.
pub fn layout_laws()
    ensures lexemes { LexemesAreRead }
    ensures blanks { BlanksAddNothing }
    ensures comments { CommentsAddNothing }
    ensures last_comment { LastCommentsAddNothing }
    ensures positions { LexemesStandThere }
    ensures tokens { WordsDecide }
    ensures faultless { IsFaultless }
{}

/// That each token but the numbers is read from its spelling.
pub fn spelling_laws()
    ensures keywords { KeywordsAreRead }
    ensures signs { SignsAreRead }
    ensures fields { FieldsAreRead }
    ensures packet_switch { PacketSwitchIsRead }
    ensures names { NamesAreRead }
    ensures switches { SwitchesAreRead }
    ensures ports { PortsAreRead }
{}
