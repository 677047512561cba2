// What policies decide, and an `out` of numbers.
use crate::line::Line;
use crate::texts::policy_in;
use case_text::{CaseStop, Words};
use case_values::{key_of, push_decision, push_flag, push_outcome};
use maple_base::{Key, is_port};
use policy_eval::{eval, sent_out};
use std::alloc::Global;

/// decide STEPS SWITCH PORT POLICY: what is decided in 1 to 65,536 steps of TCP to a port that comes to a
/// switch, or `spent`, where that takes more steps.
pub fn decide(alloc: Global, mut words: Words<'_>, out: &mut String) -> Result<(), CaseStop> {
    let steps = words.number_u32()?;
    let switch = words.number()?;
    let tp_dst = words.number_u16()?;
    let key = Key {
        tp_dst,
        ..key_of(Words::new("web"))?
    };
    if steps < 1 || 65_536 < steps || !key.valid() {
        return Err(CaseStop::Unread);
    }
    let policy = policy_in(alloc, words)?;
    let outcome = eval(alloc, &policy, steps, &Line, switch, &key)?;
    Ok(push_outcome(&outcome, out)?)
}

/// out NUMBER ..: what an `out` of at most 16 numbers decides.
pub fn out(alloc: Global, words: Words<'_>, shown: &mut String) -> Result<(), CaseStop> {
    let numbers = words.numbers(alloc)?;
    if numbers.len() > 16 {
        return Err(CaseStop::Unread);
    }
    let decision = sent_out(alloc, &numbers)?;
    Ok(push_decision(&decision, shown)?)
}

/// ports NUMBER ..: whether one of the numbers is a port.
pub fn ports(alloc: Global, words: Words<'_>, shown: &mut String) -> Result<(), CaseStop> {
    let mut has_port = false;
    for number in &words.numbers(alloc)? {
        has_port = has_port || is_port(*number);
    }
    Ok(push_flag(has_port, shown)?)
}
