//! Recording the runs of policies.
#![tactic(auto)]

mod asked_items;
pub mod laws;
mod lent_view;
mod read_cells;
mod recorder;
pub mod recording;
pub mod view;

pub use recording::{RecordError, Run, record};
pub use view::NowView;
