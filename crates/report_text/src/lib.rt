//! The lines of a report.
#![tactic(auto)]

mod line;
mod match_text;
mod shapes;
mod sheet;
mod spelling;
mod writing;

pub use line::{Learnt, Line, SHORT_LINE, ScriptRefusal, Why, refusal_numbers_law};
pub use writing::{line_len, write_line};
