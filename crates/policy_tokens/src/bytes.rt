// The bytes of a text, and how many of them belong together.
ghost use Rattle.std.specs.Prelude.{◌≡◌, ◌≤◌, length, not};
ghost use Rattle.std.specs.List.{prefix_len};
ghost use Rattle.policy_tokens.specs.Bytes.{is_visible, is_blank, is_text_byte, is_letter, is_word_byte, begins_comment, ends_line, may_pair, begins_equal, begins_lexeme};
ghost use Rattle.policy_tokens.specs.Lexemes.{more};

/// Whether a byte may stand in a text.
pub fn is_text_byte(byte: u8) -> bool
    ensures { result ≡ is_text_byte byte }
{
    is_visible(byte) || is_blank(byte)
}

fn is_visible(byte: u8) -> bool
    ensures { result ≡ is_visible byte }
{
    33 <= byte && byte <= 126
}

fn is_blank(byte: u8) -> bool
    ensures { result ≡ is_blank byte }
{
    byte == b' ' || byte == b'\t' || byte == b'\n' || byte == b'\r'
}

/// Whether a byte may stand in a word.
pub fn is_word_byte(byte: u8) -> bool
    ensures { result ≡ is_word_byte byte }
{
    is_letter(byte)
        || (b'0' <= byte && byte <= b'9')
        || byte == b'_'
        || byte == b'.'
        || byte == b':'
}

fn is_letter(byte: u8) -> bool
    ensures { result ≡ is_letter byte }
{
    (b'a' <= byte && byte <= b'z') || (b'A' <= byte && byte <= b'Z')
}

fn begins_comment(byte: u8) -> bool
    ensures { result ≡ begins_comment byte }
{
    byte == b'#'
}

/// Whether a byte ends its line.
pub fn ends_line(byte: u8) -> bool
    ensures { result ≡ ends_line byte }
{
    byte == b'\n'
}

/// Whether a byte begins a word or a sign, where it belongs to nothing before it.
pub fn begins_lexeme(byte: u8) -> bool
    ensures { result ≡ begins_lexeme byte }
{
    is_visible(byte) && !begins_comment(byte)
}

/// How many bytes behind a byte belong to the word, the comment or the sign that it begins.
pub fn more(byte: u8, behind: &[u8]) -> usize
    ensures count { result ≡ more byte behind.now }
    ensures bound { result ≤ length behind.now }
{
    if is_word_byte(byte) {
        word_len(behind)
    } else if begins_comment(byte) {
        line_len(behind)
    } else if may_pair(byte) && begins_equal(behind) {
        1
    } else {
        0
    }
}

fn word_len(text: &[u8]) -> usize
    ensures count { result ≡ prefix_len is_word_byte text.now }
    ensures bound { result ≤ length text.now }
{
    for (len, byte) in text.iter().enumerate() {
        if !is_word_byte(*byte) {
            return len;
        }
    }
    text.len()
}

fn line_len(text: &[u8]) -> usize
    ensures count { result ≡ prefix_len (λ b. not (ends_line b)) text.now }
    ensures bound { result ≤ length text.now }
{
    for (len, byte) in text.iter().enumerate() {
        if ends_line(*byte) {
            return len;
        }
    }
    text.len()
}

fn may_pair(byte: u8) -> bool
    ensures { result ≡ may_pair byte }
{
    byte == b'=' || byte == b'!' || byte == b'<'
}

fn begins_equal(text: &[u8]) -> bool
    ensures { result ≡ begins_equal text.now }
{
    match text {
        [] => false,
        [first, ..] => *first == b'=',
    }
}
