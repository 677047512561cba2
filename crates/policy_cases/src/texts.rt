// Texts of cases, and bytes in one line.
use case_text::{CaseStop, Words};
use maple_text::value_of;
use policy_lang::Policy;
use policy_text::{ReadError, read_policy};
use std::alloc::Global;

/// The text that all words are: hexadecimal digits behind `bytes `, or a text in one line, in which
/// `@64 (~` stands for 64 times `(`.
pub fn text_in(alloc: Global, words: Words<'_>) -> Result<Vec<u8>, CaseStop> {
    match words.rest().strip_prefix("bytes ") {
        Some(digits) => Words::new(digits).bytes(alloc),
        None => repeated(alloc, &words.text(alloc)?),
    }
}

fn repeated(alloc: Global, text: &str) -> Result<Vec<u8>, CaseStop> {
    let mut whole = Vec::new(alloc);
    for (index, piece) in text.split('@').enumerate() {
        if index == 0 {
            whole.extend_from_slice(piece.as_bytes())?;
        } else {
            push_repeated(piece, &mut whole)?;
        }
    }
    Ok(whole)
}

// Appends a part so often as a piece says, and what stands behind it.
fn push_repeated(piece: &str, whole: &mut Vec<u8>) -> Result<(), CaseStop> {
    let (count, rest) = piece.split_once(' ').ok_or(CaseStop::Unread)?;
    let (part, behind) = rest.split_once('~').ok_or(CaseStop::Unread)?;
    for _ in 0..value_of(count.as_bytes()).ok_or(CaseStop::Unread)? {
        whole.extend_from_slice(part.as_bytes())?;
    }
    whole.extend_from_slice(behind.as_bytes())?;
    Ok(())
}

/// The policy of a text.
pub fn policy_of(alloc: Global, text: &[u8]) -> Result<Policy, CaseStop> {
    match read_policy(alloc, text) {
        Ok(policy) => Ok(policy),
        Err(ReadError::Refused { .. }) => Err(CaseStop::Unread),
        Err(ReadError::NoMemory) => Err(CaseStop::NoMemory),
    }
}

/// The policy of the text that all words are.
pub fn policy_in(alloc: Global, words: Words<'_>) -> Result<Policy, CaseStop> {
    policy_of(alloc, &text_in(alloc, words)?)
}
