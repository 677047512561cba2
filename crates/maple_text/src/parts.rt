// The parts of a text round a byte.
ghost use Rattle.std.specs.Prelude.{◌≡◌, ◌==◌, ◌<◌, ◌≤◌, ◌∷◌, length, IfSome};
ghost use Rattle.std.specs.List.{slice_split};
ghost use Rattle.maple_text.specs.Parts.{rest_parts, len_to};

/// The first part of a text, up to a byte, and what is behind that byte; `None` behind the last
/// part.
pub fn cut(stop: u8, text: &[u8]) -> (&[u8], Option<&[u8]>)
    ensures parts { slice_split (λ b. b == stop) text.now ≡ result.0.now ∷ rest_parts stop result.1 }
    ensures shorter { IfSome result.1 (λ rest. length rest.now < length text.now) }
{
    let at = len_to(stop, text);
    if at == text.len() {
        (text, None)
    } else {
        (&text[..at], Some(&text[at + 1..]))
    }
}

/// How many bytes of a text stand ahead of the first of this kind: all, where there is none.
pub fn len_to(stop: u8, text: &[u8]) -> usize
    ensures length { result ≡ len_to stop text.now }
    ensures bound { result ≤ length text.now }
{
    for (at, byte) in text.iter().enumerate() {
        if *byte == stop {
            return at;
        }
    }
    text.len()
}
