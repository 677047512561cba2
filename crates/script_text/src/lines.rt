// The lines of a text.
ghost use Rattle.std.specs.Prelude.{◌≡◌, ◌+◌, ◌<◌, ◌≤◌, ◌∷◌, ◌++◌, length};
ghost use Rattle.std.specs.List.{concat};
ghost use Rattle.script_text.specs.Lines.{ended_lines, without_end, is_mark, line_len};
ghost use Rattle.script_text.specs.Marks.{ahead_of_mark, behind_mark, lines_to_mark};

/// What is ahead of the first line that is `%%`, what is behind that line, and how many lines are
/// ahead of what is behind it. Where no line is `%%` all is ahead of it.
pub fn split_at_mark(text: &[u8]) -> (&[u8], &[u8], usize)
    ensures ahead { result.0.now ≡ concat (ahead_of_mark (ended_lines text.now)) }
    ensures behind { ended_lines result.1.now ≡ behind_mark (ended_lines text.now) }
    ensures lines { result.2 ≡ lines_to_mark (ended_lines text.now) }
    ensures within { result.2 + length result.1.now ≤ length text.now }
{
    let mut at = 0;
    let mut lines = 0;
    while at < text.len() {
        let (line, rest) = cut_line(&text[at..]);
        lines += 1;
        if is_mark(line) {
            return (&text[..at], rest, lines);
        }
        at += line.len();
    }
    (text, &[], lines)
}

// The first line of a text, with the line feed that ends it, and the rest.
pub(crate) fn cut_line(text: &[u8]) -> (&[u8], &[u8])
    requires { 0 < length text.now }
    ensures lines { ended_lines text.now ≡ result.0.now ∷ ended_lines result.1.now }
    ensures whole { text.now ≡ result.0.now ++ result.1.now }
    ensures some { 0 < length result.0.now }
    ensures first { without_end result.0.now ≡ without_end text.now }
{
    text.split_at(line_len(text))
}

// The line without the line feed that ends it.
pub(crate) fn without_end(line: &[u8]) -> &[u8]
    ensures { result.now ≡ without_end line.now }
{
    for (at, byte) in line.iter().enumerate() {
        if *byte == b'\n' {
            return &line[..at];
        }
    }
    line
}

fn is_mark(line: &[u8]) -> bool
    ensures { result ≡ is_mark line.now }
{
    without_end(line) == b"%%".as_slice()
}

// How many bytes the first line has, with its line feed.
fn line_len(text: &[u8]) -> usize
    ensures length { result ≡ line_len text.now }
    ensures bound { result ≤ length text.now }
{
    for (at, byte) in text.iter().enumerate() {
        if *byte == b'\n' {
            return at + 1;
        }
    }
    text.len()
}
