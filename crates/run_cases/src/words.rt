// The words of a command line, as a case has them.
use maple_base::{Bytes, NoMemory, Words};
use std::alloc::Global;

/// The words of a text, with a blank between them.
pub fn words_of(alloc: Global, text: &str) -> Result<Words, NoMemory> {
    let mut words = Vec::new(alloc);
    if !text.is_empty() {
        for part in text.split(' ') {
            words.push(word_of(alloc, part)?)?;
        }
    }
    Ok(Words::new(words))
}

// `''` is the word without a letter, and `_` stands for a blank in a word.
fn word_of(alloc: Global, part: &str) -> Result<Bytes, NoMemory> {
    let mut word = Vec::new(alloc);
    if part != "''" {
        for byte in part.bytes() {
            word.push(if byte == b'_' { b' ' } else { byte })?;
        }
    }
    Ok(Bytes::new(word))
}
