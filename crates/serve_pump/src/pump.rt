// A server with its reader of control text.
ghost use Rattle.std.specs.Prelude.{◌≡◌};
ghost use Rattle.serve_pump.specs.declared.pump.TurnStop.TheVariants as stops;
ghost use Rattle.serve_pump.specs.Turning.{stop_of};

use board_lines::ControlReader;
use machine_desk::{ReportStop, Stopped};
use serve_channels::Server;

/// A server, what reads the control text, and room for the bytes of one turn.
#[derive(Drop)]
pub struct Pump<'h> {
    pub(crate) server: Server<'h>,
    pub(crate) reader: ControlReader,
    pub(crate) room: Vec<u8>,
}

/// Why a run breaks off.
#[derive(Clone, Copy, Debug, PartialEq, Eq)]
pub enum TurnStop {
    /// The board failed, at its start or as it was asked for a turn. Nothing was done since.
    Board,
    /// Memory ran out, or the hall is worn, which the desk tells.
    Stopped,
    /// A write failed.
    Write,
}

impl From<Stopped> for TurnStop {
    ghost from_gives = { λ _ stop. stop ≡ stops.Stopped };

    fn from(_stopped: Stopped) -> TurnStop {
        TurnStop::Stopped
    }
}

impl<'h> Pump<'h> {
    /// Of a server, a reader, and room for the bytes of one turn.
    pub fn new(server: Server<'h>, reader: ControlReader, room: Vec<u8>) -> Pump<'h>
        ensures server { result.server ≡ server.entry }
        ensures reader { result.reader ≡ reader }
        ensures room { result.room ≡ room }
    {
        Pump {
            server,
            reader,
            room,
        }
    }

    /// The server again.
    pub fn into_server(self) -> Server<'h>
        ensures { result ≡ self.entry.server }
    {
        let Pump { server, .. } = self;
        server
    }
}

// Why a run breaks off where the report wasn't written.
pub(crate) fn stopped_by(stop: ReportStop) -> TurnStop
    ensures { result ≡ stop_of stop }
{
    match stop {
        ReportStop::Failed => TurnStop::Write,
        ReportStop::NoMemory | ReportStop::Worn => TurnStop::Stopped,
    }
}
