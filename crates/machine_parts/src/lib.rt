//! All that the machine keeps, its sessions and the lines that it tells among it, with the entries that make no
//! state.
#![tactic(auto)]

pub mod aims;
pub mod answering;
pub mod connection;
pub mod end_lines;
pub mod ends;
pub mod finding;
pub mod lists;
pub mod message_lines;
pub mod note_lines;
pub mod notes;
pub mod opened;
pub mod opens;
pub mod parts;
pub mod reads;
pub mod room;
pub mod rule_lines;
pub mod shared;
pub mod takes;
pub mod text;

pub use connection::Connection;
pub use end_lines::{close, why_of};
pub use message_lines::{tell_error, tell_last_error, tell_ready};
pub use note_lines::line_of;
pub use opened::Opened;
pub use parts::{Parts, Past};
pub use room::{MOST_DUE, make_room};
pub use rule_lines::tell_rules;
pub use text::written;
