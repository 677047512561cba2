// What the first lines of a script ask for.
ghost use Rattle.std.specs.Prelude.{◌≡◌, true, ◌+◌, ◌<◌, ◌≤◌, IfErr, IfOk, Err, length};
ghost use Rattle.script_text.specs.Lines.{ended_lines, without_end};
ghost use Rattle.script_text.specs.Steps.{IsHalted, IsKept, Leads, order_with, takes_memory};
ghost use Rattle.script_text.specs.Behind.{LeavesBehind};

use crate::lines::{cut_line, split_at_mark, without_end};
use crate::{Step, StepStop, step_of};
use std::alloc::Global;

/// What the first lines of a script ask for, and the script behind them.
#[derive(Drop)]
pub struct Next<'a> {
    pub step: Step,
    /// Of a new policy the text.
    pub text: &'a [u8],
    /// The script behind.
    pub rest: &'a [u8],
    /// How many lines are ahead of it.
    pub passed: usize,
}

/// What the first line of a script asks for, where there are devices at the places from 1 to
/// `places`. Of a new policy the text is taken too: it goes up to a line `%%`, which is passed, or
/// to the end.
///
/// # Errors
///
/// Those of `step_of` at the first line.
pub fn next_order<'a>(alloc: Global, script: &'a [u8], places: u32) -> Result<Next<'a>, StepStop>
    requires { 0 < length script.now }
    ensures order { IfOk result (λ next. Leads places (ended_lines script.now) (order_with next.step next.text.now) next.passed (ended_lines next.rest.now)) }
    ensures shorter { IfOk result (λ next. length next.rest.now < length script.now) }
    ensures within { IfOk result (λ next. next.passed + length next.rest.now ≤ length script.now) }
    ensures stop { IfErr result (IsHalted places (ended_lines script.now)) }
    ensures memory { result ≡ Err StepStop.NoMemory → takes_memory (without_end script.now) ≡ true }
    ensures kept { IfOk result (λ next. IsKept places next.step) }
{
    let (line, behind) = cut_line(script);
    let step = step_of(alloc, without_end(line), places)?;
    let (text, rest, lines) = text_behind(&step, behind);
    Ok(Next {
        step,
        text,
        rest,
        passed: 1 + lines,
    })
}

// The text behind a step's line, which is a new policy's, what is left of the script, and how many
// lines are ahead of that.
fn text_behind<'a>(step: &Step, behind: &'a [u8]) -> (&'a [u8], &'a [u8], usize)
    ensures behind { LeavesBehind step.now (ended_lines behind.now) result.0.now result.2 (ended_lines result.1.now) }
    ensures within { result.2 + length result.1.now ≤ length behind.now }
{
    match step {
        Step::NewPolicy => split_at_mark(behind),
        _ => (&[], behind, 0),
    }
}
