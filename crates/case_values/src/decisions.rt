// Decisions: `drop`, `flood`, actions as those of rules (`out` where no port is named), or `path` and the hops, each `SWITCH:PORT`.
use crate::rules::push_actions;
use maple_base::{Actions, Decision, Outcome, Place};
use std::alloc::AllocError;

/// Appends `spent`, or what is decided.
pub fn push_outcome(outcome: &Outcome, out: &mut String) -> Result<(), AllocError> {
    match outcome {
        Outcome::Spent => out.push_str("spent"),
        Outcome::Decided(decision) => push_decision(decision, out),
    }
}

/// Appends what is decided.
pub fn push_decision(decision: &Decision, out: &mut String) -> Result<(), AllocError> {
    match decision {
        Decision::Drop => out.push_str("drop"),
        Decision::Flood => out.push_str("flood"),
        Decision::Out(actions) => push_out(actions, out),
        Decision::Path(path) => {
            out.push_str("path")?;
            push_hops(path.items(), out)
        }
    }
}

// Appends `out` alone where no port is named, so that it isn't taken for `drop`.
fn push_out(actions: &Actions, out: &mut String) -> Result<(), AllocError> {
    if actions.items().is_empty() {
        return out.push_str("out");
    }
    push_actions(actions, out)
}

/// Appends each hop behind a blank.
pub fn push_hops(hops: &[Place], out: &mut String) -> Result<(), AllocError> {
    for hop in hops {
        write!(out, " {}:{}", hop.switch, hop.port)?;
    }
    Ok(())
}
