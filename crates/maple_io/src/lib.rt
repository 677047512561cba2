//! Bytes in and bytes out: what a source gives, what a sink took, what a board of connections did, and
//! counts of faults that never fall.
#![tactic(auto)]

pub mod act;
pub mod adapt;
pub mod answer;
pub mod board;
mod kept;
pub mod mem;
pub mod mem_board;
mod memory;
pub mod sink;
pub mod source;
pub mod whole;

pub use act::Act;
pub use adapt::{ReadSource, WriteSink};
pub use answer::Answer;
pub use board::{Board, Piece, Sent, Started, Turn};
pub use mem::{MemSink, MemSource};
pub use mem_board::{MemBoard, MemTurn};
pub use sink::{Put, Sink};
pub use source::{Got, Source};
pub use whole::{PutStop, put_all};
