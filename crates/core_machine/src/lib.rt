//! The machine of the controller: what it does at each entry.
#![tactic(auto)]

mod advancing;
mod answers;
mod dispatch;
mod joins;
mod machine;
mod messages;
mod next;
mod packet_ins;
mod policies;
mod runs;
mod shared;
mod states;
mod updates;
mod view;

pub use machine::Core;
pub use machine_steps::{Differs, Entry, Input, JobItem, Note, Reply};
pub use view::CoreView;
