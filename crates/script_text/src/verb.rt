// The words that commands begin with.
ghost use Rattle.std.specs.Prelude.{◌≡◌};
ghost use Rattle.script_text.specs.Verbs.{word_of, verb_among, verb_of};

/// The word that a command begins with.
#[derive(Clone, Copy, Debug, PartialEq, Eq)]
pub enum Verb {
    Plug,
    Unplug,
    Packet,
    Frame,
    Turn,
    Settle,
    Host,
    NoHost,
    Link,
    NoLink,
    Set,
    Unset,
    NewPolicy,
    Rules,
    Quit,
}

impl Verb {
    // The verb's word.
    fn word(self) -> &'static [u8]
        ensures { result.now ≡ word_of self }
    {
        match self {
            Verb::Plug => b"plug",
            Verb::Unplug => b"unplug",
            Verb::Packet => b"packet",
            Verb::Frame => b"frame",
            Verb::Turn => b"turn",
            Verb::Settle => b"settle",
            Verb::Host => b"host",
            Verb::NoHost => b"nohost",
            Verb::Link => b"link",
            Verb::NoLink => b"nolink",
            Verb::Set => b"set",
            Verb::Unset => b"unset",
            Verb::NewPolicy => b"newpolicy",
            Verb::Rules => b"rules",
            Verb::Quit => b"quit",
        }
    }

    /// The verb of a word.
    pub fn named(word: &[u8]) -> Option<Verb>
        ensures { result ≡ verb_of word.now }
    {
        verb_among(&VERBS, word)
    }
}

fn verb_among(verbs: &[Verb], word: &[u8]) -> Option<Verb>
    ensures { result ≡ verb_among verbs.now word.now }
{
    for verb in verbs {
        if verb.word() == word {
            return Some(*verb);
        }
    }
    None
}

const VERBS: [Verb; 15] = [
    Verb::Plug,
    Verb::Unplug,
    Verb::Packet,
    Verb::Frame,
    Verb::Turn,
    Verb::Settle,
    Verb::Host,
    Verb::NoHost,
    Verb::Link,
    Verb::NoLink,
    Verb::Set,
    Verb::Unset,
    Verb::NewPolicy,
    Verb::Rules,
    Verb::Quit,
];
