//! Maple's top call: the words of a command line are run over an input, devices and a board.
#![tactic(auto)]

pub mod closing;
pub mod devices;
pub mod finish;
pub mod gathered;
pub mod input;
pub mod policies;
pub mod program;
pub mod running;
pub mod serving;
pub mod simulating;
pub mod status;
pub mod texts;
pub mod top;

pub use devices::{DEVICES, MOST_RULES, PORTS, program_device, push_idle};
pub use program::run_program;
pub use status::Status;
pub use top::maple;
