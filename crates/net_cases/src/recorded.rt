// A run as text: the questions and the cells with their answers, and behind `then` what is decided.
use case_text::CaseStop;
use case_values::{push_cell, push_item, push_outcome, push_value};
use maple_base::Key;
use trace_record::{RecordError, Run};

/// Appends a run of the policy of number 3 at switch 7 for this key, or `refused`, where the view
/// refused a read.
pub fn push_record(
    run: &Result<Run, RecordError>,
    key: &Key,
    out: &mut String,
) -> Result<(), CaseStop> {
    match run {
        Ok(run) => push_run(run, key, out),
        Err(RecordError::Unread) => Ok(out.push_str("refused")?),
        Err(RecordError::NoMemory) => Err(CaseStop::NoMemory),
    }
}

fn push_run(run: &Run, key: &Key, out: &mut String) -> Result<(), CaseStop> {
    if run.number() != 3 || run.switch() != 7 || *run.key() != *key {
        out.push_str("of another call: ")?;
    }
    for item in run.items().items() {
        push_item(item, out)?;
        out.push_str(" ")?;
    }
    for (cell, value) in run.cells().items() {
        push_cell(*cell, out)?;
        out.push_str("=")?;
        push_value(*value, out)?;
        out.push_str(" ")?;
    }
    out.push_str("then ")?;
    Ok(push_outcome(run.outcome(), out)?)
}
