//! The lines of a script, what they ask for, and of its report; and the frames of a script's packets.
#![tactic(auto)]

mod command;
mod frame;
mod hexadecimal;
mod laws;
mod lines;
mod next;
mod packet_fields;
mod packet_spec;
mod reading;
mod step;
mod verb;
mod words;

pub use command::{Command, LineError};
pub use frame::frame_of;
pub use laws::grammar_laws;
pub use lines::split_at_mark;
pub use next::{Next, next_order};
pub use packet_spec::PacketSpec;
pub use reading::read_line;
pub use report_text::{Learnt, Line, SHORT_LINE, ScriptRefusal, Why, line_len, write_line};
pub use step::{Step, StepStop, step_of};
