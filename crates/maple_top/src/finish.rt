// The last line of a run.
ghost use Rattle.std.specs.Prelude.{◌≡◌, ◌≢◌, ◌≤◌};
ghost use Rattle.maple_io.specs.Views.{NoWriteFailed};
ghost use Rattle.maple_top.specs.Ends.{Ends, IsGiven};
ghost use Rattle.maple_top.specs.Statuses.{last_line};

use crate::status::Status;
use maple_io::{PutStop, Sink, put_all};

/// Writes the line that a run writes last, and ends it with its status, or with `WriteFault` or
/// `NoMemory` where the line can't be written.
pub fn finish<O: Sink>(output: &mut O, status: Status) -> Status
    requires { IsGiven status }
    ensures ends { Ends (O.tells output.old) (O.tells output.new) status (last_line status) result }
    ensures spared { result ≢ Status.WriteFault → NoWriteFailed (O.tells output.old) (O.tells output.new) }
{
    put_text(output, last_line(status), status)
}

/// Writes a text, and gives this status, or `WriteFault` or `NoMemory` where it can't be written.
pub fn put_text<O: Sink>(output: &mut O, text: &[u8], status: Status) -> Status
    requires { IsGiven status }
    ensures ends { Ends (O.tells output.old) (O.tells output.new) status text.now result }
    ensures count { (O.tells output.old).failed ≤ (O.tells output.new).failed }
    ensures spared { result ≢ Status.WriteFault → NoWriteFailed (O.tells output.old) (O.tells output.new) }
{
    match put_all(output, text) {
        Ok(()) => status,
        Err(PutStop::Failed) => Status::WriteFault,
        Err(PutStop::NoMemory) => Status::NoMemory,
    }
}

fn last_line(status: Status) -> &'static [u8]
    ensures { result.now ≡ last_line status }
{
    match status {
        Status::Done => b"end\n",
        Status::Usage => b"refused usage\n",
        Status::ReadFault => b"refused read\n",
        Status::TooLong => b"refused input\n",
        Status::BoardFault => b"refused board\n",
        Status::Worn => b"refused worn\n",
        Status::Policy | Status::Script | Status::WriteFault | Status::NoMemory => b"",
    }
}
