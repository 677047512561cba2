//! Maple, an SDN controller for OpenFlow 1.0 switches.
#![tactic(auto)]

use maple_base::{Bytes, NoMemory, Words};
use maple_io::{ReadSource, WriteSink};
use maple_top::{Status, run_program};
use socket_board::SocketBoard;
use std::env;
use std::io::ErrorKind;
use std::process::ExitCode;
use std::rt::Env;

// The words behind the program's name. A word that isn't UTF-8 makes a faulty command line, as no
// words do.
fn words_of<R: Env + AllocGlobal>(rt: &R) -> Result<Words, NoMemory> {
    let mut words = Vec::new(rt.alloc());
    match env::args(rt) {
        Ok(args) => {
            for arg in args.skip(1) {
                let word = Vec::from_slice(rt.alloc(), arg.as_bytes())?;
                words.push(Bytes::new(word))?;
            }
        }
        Err(error) => {
            if error.kind() == ErrorKind::OutOfMemory {
                return Err(NoMemory);
            }
        }
    }
    Ok(Words::new(words))
}

fn main(rt: HostRuntime) -> ExitCode {
    let status = match words_of(&rt) {
        Ok(words) => {
            let mut input = ReadSource::new(rt.stdin());
            let mut output = WriteSink::new(rt.stdout());
            let mut board = SocketBoard::new(&rt, rt.alloc());
            run_program(&rt, rt.alloc(), &words, &mut input, &mut output, &mut board)
        }
        Err(NoMemory) => Status::NoMemory,
    };
    ExitCode::from(status.number())
}
