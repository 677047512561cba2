// What the summary of a report counts.
ghost use Rattle.std.specs.Prelude.{◌≡◌, ◌==◌};
ghost use Rattle.gen_script.specs.Summary.{begins, has_word, tells, counts, name_of};

use maple_text::cut;

/// A kind of line that the summary counts.
#[derive(Clone, Copy)]
pub enum Tally {
    /// Packets at devices.
    Packets,
    /// Those that hit a rule.
    Hits,
    /// Those that went to the controller.
    Misses,
    /// New states.
    States,
    /// Answers whose trace was learned.
    Learned,
    /// Answers whose trace was known.
    Known,
    /// Answers whose trace was not learned.
    Unlearned,
}

impl Tally {
    /// The word of the summary's line.
    pub fn name(self) -> &'static [u8]
        ensures { result.now ≡ name_of self }
    {
        match self {
            Tally::Packets => b"packets",
            Tally::Hits => b"hits",
            Tally::Misses => b"misses",
            Tally::States => b"states",
            Tally::Learned => b"learned",
            Tally::Known => b"known",
            Tally::Unlearned => b"unlearned",
        }
    }

    /// Whether a line of a report, without its line feed, is of this kind.
    pub fn counts(self, line: &[u8]) -> bool
        ensures { result ≡ counts self line.now }
    {
        match self {
            Tally::Packets => begins(b"hit ", line) || begins(b"miss ", line),
            Tally::Hits => begins(b"hit ", line),
            Tally::Misses => begins(b"miss ", line),
            Tally::States => begins(b"state ", line),
            Tally::Learned => tells(b"learned", line),
            Tally::Known => tells(b"known", line),
            Tally::Unlearned => tells(b"unlearned", line),
        }
    }
}

fn begins(text: &[u8], line: &[u8]) -> bool
    ensures { result ≡ begins text.now line.now }
{
    line.starts_with(text)
}

// Whether a line is an answer with this word.
fn tells(word: &[u8], line: &[u8]) -> bool
    ensures { result ≡ tells word.now line.now }
{
    begins(b"answer ", line) && has_word(word, line)
}

fn has_word(word: &[u8], line: &[u8]) -> bool
    ensures { result ≡ has_word word.now line.now }
{
    let mut rest = Some(line);
    while let Some(text) = rest {
        let (first, behind) = cut(b' ', text);
        if word == first {
            return true;
        }
        rest = behind;
    }
    false
}
