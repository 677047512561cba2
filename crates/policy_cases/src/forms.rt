// What is read of texts, and how it is printed.
use crate::texts::{policy_in, policy_of, text_in};
use case_text::{CaseStop, Words, push_text};
use policy_lang::Policy;
use policy_text::{ReadError, print_policy, read_policy};
use std::alloc::Global;

/// form TEXT: a policy's printed form, of which a policy is read that is printed so.
pub fn form(alloc: Global, words: Words<'_>, out: &mut String) -> Result<(), CaseStop> {
    push_form(alloc, &policy_in(alloc, words)?, out)
}

fn push_form(alloc: Global, policy: &Policy, out: &mut String) -> Result<(), CaseStop> {
    let printed = printed_behind(alloc, policy)?;
    let form = printed.strip_prefix(AHEAD).ok_or(CaseStop::Unread)?;
    push_text(form, out)?;
    if is_printed(alloc, &policy_of(alloc, form)?, form)? {
        Ok(())
    } else {
        Ok(out.push_str(", read back otherwise")?)
    }
}

const AHEAD: &[u8] = b"ahead ";

// What was there, and a policy's printed form behind it.
fn printed_behind(alloc: Global, policy: &Policy) -> Result<Vec<u8>, CaseStop> {
    let mut printed = Vec::from_slice(alloc, AHEAD)?;
    print_policy(policy, &mut printed)?;
    Ok(printed)
}

fn is_printed(alloc: Global, policy: &Policy, form: &[u8]) -> Result<bool, CaseStop> {
    let printed = printed_behind(alloc, policy)?;
    Ok(printed.strip_prefix(AHEAD) == Some(form))
}

const NAMES: &str =
    "policy { let x = up(1, 2); let y = up(1, 2); let z = up(1, 2); let m = pkt.switch; let n = pkt.switch; ";

const NAMES_FORM: &str =
    "policy {\\n  let x = up(1, 2);\\n  let y = up(1, 2);\\n  let z = up(1, 2);\\n  let m = pkt.switch;\\n  let n = pkt.switch;\\n  ";

/// value NAME = EXPRESSION: the same of an assignment to `x`, `y` or `z`, which are truths, or to `m` or `n`,
/// which are numbers, behind what declares them. All is printed where that isn't printed ahead.
pub fn value(alloc: Global, words: Words<'_>, out: &mut String) -> Result<(), CaseStop> {
    let text = format!(in alloc; "{NAMES}{}; }}", words.rest())?;
    let mut form = String::new(alloc);
    push_form(alloc, &policy_of(alloc, text.as_bytes())?, &mut form)?;
    Ok(out.push_str(assignment_in(&form))?)
}

fn assignment_in(form: &str) -> &str {
    let behind = form.strip_prefix(NAMES_FORM).unwrap_or(form);
    behind.strip_suffix(";\\n}\\n").unwrap_or(form)
}

/// reread TEXT: how long a policy's printed form is, and whether a policy is read of it that is printed so,
/// or else the first fault.
pub fn reread(alloc: Global, words: Words<'_>, out: &mut String) -> Result<(), CaseStop> {
    let mut form = Vec::new(alloc);
    print_policy(&policy_in(alloc, words)?, &mut form)?;
    write!(out, "{} ", form.len())?;
    match read_policy(alloc, &form) {
        Ok(again) => {
            let is_same = is_printed(alloc, &again, &form)?;
            Ok(out.push_str(if is_same { "same" } else { "other" })?)
        }
        Err(error) => {
            out.push_str("refused ")?;
            push_fault(error, out)
        }
    }
}

/// fault TEXT: the line, the column and the kind of a text's first fault, or `none`.
pub fn fault(alloc: Global, words: Words<'_>, out: &mut String) -> Result<(), CaseStop> {
    let text = text_in(alloc, words)?;
    match read_policy(alloc, &text) {
        Ok(_) => Ok(out.push_str("none")?),
        Err(error) => push_fault(error, out),
    }
}

fn push_fault(error: ReadError, out: &mut String) -> Result<(), CaseStop> {
    match error {
        ReadError::Refused { line, column, kind } => {
            Ok(write!(out, "{line}:{column} kind {kind}")?)
        }
        ReadError::NoMemory => Err(CaseStop::NoMemory),
    }
}
