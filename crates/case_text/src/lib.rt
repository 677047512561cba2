//! Files of cases, `call => answer` a line: how they are read, and what is said of the wrong ones.
#![tactic(auto)]

pub mod files;
pub mod runs;
pub mod stop;
pub mod texts;
pub mod words;

pub use files::{Program, check_file, check_files};
pub use runs::Subject;
pub use stop::CaseStop;
pub use texts::{push_hex, push_text};
pub use words::Words;
