//! The grammar of policies.
#![tactic(auto)]

pub mod emitting;
pub mod event;
pub mod laws;
pub mod operator;
pub mod reader;
pub mod stack;
pub mod stage;
pub mod tokens;

pub use event::Event;
pub use laws::grammar_laws;
pub use maple_base::Operator;
pub use reader::Reader;
pub use stack::Stack;
pub use stage::{Around, Base, Block, Shape, Stage};
