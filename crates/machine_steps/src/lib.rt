//! What the machine of the controller does at each entry, and what it keeps.
#![tactic(auto)]

pub mod entry;
pub mod item;
pub mod job;
pub mod laws;
pub mod note;
pub mod reply;

pub use entry::{Entry, Input};
pub use item::JobItem;
pub use job::Job;
pub use laws::{machine_laws, running_laws};
pub use note::Note;
pub use reply::{Differs, Reply};
