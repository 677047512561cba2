//! Between a board and who stands behind it: what was taken out for a connection is sent over any board,
//! in order, each byte once; and control text is read as its lines and its policies, however it is cut.
#![tactic(auto)]

pub mod control_item;
pub mod control_reader;
pub mod kept_text;
pub mod laws;
pub mod outbox;
pub mod send_queue;
pub mod sending;

pub use control_item::ControlItem;
pub use control_reader::ControlReader;
pub use kept_text::KeptText;
pub use laws::{control_laws, kept_laws, sending_laws};
pub use outbox::Outbox;
pub use send_queue::SendQueue;
pub use sending::{Reach, deliver, send_all};
