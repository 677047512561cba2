//! The tokens of a policy's text, each with its position, or the first fault of its bytes and words.
#![tactic(auto)]

mod bytes;
pub mod fault;
pub mod laws;
mod reading;
pub mod token;
pub mod token_list;
mod words;

pub use fault::TokensError;
pub use laws::{layout_laws, spelling_laws};
pub use reading::read_tokens;
pub use token::{Keyword, PlacedToken, Position, Sign, Token};
pub use token_list::Tokens;
