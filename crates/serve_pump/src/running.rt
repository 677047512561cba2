// A whole run, at its desk.
ghost use Rattle.std.specs.Prelude.{◌≡◌, ◌<◌, length};
ghost use Rattle.board_lines.specs.Readings.{beginning};
ghost use Rattle.machine_desk.specs.Crews.{MayHave, SameCrew};
ghost use Rattle.machine_desk.specs.Desks.{SameHall};
ghost use Rattle.serve_channels.specs.Keeping.{IsServing};
ghost use Rattle.serve_channels.specs.Servers.{IsSameHall};
ghost use Rattle.serve_channels.specs.Starting.{IsFresh};
ghost use Rattle.serve_pump.specs.Beginning.{given_at, given_by};
ghost use Rattle.serve_pump.specs.Ending.{DroveAt, GoesToEnd, IsCaused, RanAt, end_of, stopped_end, with_memory};
ghost use Rattle.machine_desk.specs.Openings.{IsOpenedAt};

use crate::laws::begin_laws;
use crate::startup::{Begun, Startup};
use crate::{Pump, TurnStop};
use board_lines::ControlReader;
use machine_desk::{Crew, Desk};
use maple_io::{Board, Sink};
use packet_workers::Gate;
use serve_channels::Server;
use serve_steps::ServeEnd;
use std::alloc::Global;
use std::sync::Wait;

/// How many bytes a turn may give: they bound the delay of all other connections.
const ROOM: usize = 8_192;

/// A run at a desk whose machine is ahead of its first entry, beside these workers or alone. Where memory ran out in a call of
/// the desk's own, that is how it ends.
pub(crate) fn at_desk<'p, R: Wait, B: Board, G: Gate, O: Sink>(
    rt: &R,
    alloc: Global,
    desk: Desk<'p>,
    crew: Option<Crew<'p>>,
    startup: &Startup<'_>,
    gate: &G,
    board: &mut B,
    out: &mut O,
) -> (Desk<'p>, Option<Crew<'p>>, ServeEnd)
    requires opened { IsOpenedAt desk }
    requires crew { MayHave crew desk.footing.parts desk.now }
    ensures same { SameHall desk.entry.footing result.0.footing }
    ensures crew { SameCrew crew.entry result.1 }
    ensures drove { DroveAt result.2 (given_by desk.entry.footing.start startup.now) result.0
        (B.tells board.old) (B.tells board.new) (O.tells out.old) (O.tells out.new) }
{
    begin_laws();
    let Ok(room) = Vec::from_elem(alloc, 0, ROOM) else {
        return (desk, crew, ServeEnd::NoMemory);
    };
    let server = Server::new(alloc, desk, crew);
    let mut pump = Pump::new(server, ControlReader::new(alloc), room);
    let end = pump.run(rt, gate, board, startup, out);
    let server = pump.into_server();
    server.law();
    let end = with_memory(end, server.had_memory());
    let (desk, crew) = server.into_parts();
    (desk, crew, end)
}

// How a run ended that ended so, by whether memory sufficed.
fn with_memory(end: ServeEnd, had: bool) -> ServeEnd
    ensures { result ≡ with_memory end had }
{
    match end {
        ServeEnd::Done | ServeEnd::Script { .. } if !had => ServeEnd::NoMemory,
        end => end,
    }
}

impl<'h> Pump<'h> {
    /// A whole run: it begins, and turn follows turn, up to the last, or until it breaks off.
    pub(crate) fn run<R: Wait, B: Board, G: Gate, O: Sink>(
        &mut self,
        rt: &R,
        gate: &G,
        board: &mut B,
        startup: &Startup<'_>,
        out: &mut O,
    ) -> ServeEnd
        requires fresh { IsFresh self.old.server }
        requires reader { self.old.reader ≡ beginning }
        requires room { 0 < length self.old.room.items }
        ensures ran { RanAt result (given_at self.old.server startup.now) (B.tells board.old).log (B.tells board.new).log self.new.server.desk
            (O.tells out.old) (O.tells out.new) }
        ensures caused { IsCaused result (B.tells board.old) (B.tells board.new) (O.tells out.old) (O.tells out.new) }
        ensures same { IsSameHall self.old.server self.new.server }
    {
        begin_laws();
        let begun = self.begin(rt, gate, board, startup, out);
        self.server.law();
        match begun {
            Ok(Begun::Listening) => self.go_on(rt, gate, board, out),
            Ok(Begun::Quit) => ServeEnd::Done,
            Ok(Begun::Refused { line, kind }) => ServeEnd::Script { line, kind },
            Err(stop) => self.end_of(stop),
        }
    }

    // Turn follows turn, up to the last, or until the run breaks off.
    fn go_on<R: Wait, B: Board, G: Gate, O: Sink>(
        &mut self,
        rt: &R,
        gate: &G,
        board: &mut B,
        out: &mut O,
    ) -> ServeEnd
        requires serving { IsServing (B.tells board.old).log self.old.server }
        requires room { 0 < length self.old.room.items }
        ensures goes { GoesToEnd result self.old (B.tells board.old).log self.new (B.tells board.new).log (O.tells out.old) (O.tells out.new) }
        ensures caused { IsCaused result (B.tells board.old) (B.tells board.new) (O.tells out.old) (O.tells out.new) }
        ensures same { IsSameHall self.old.server self.new.server }
    {
        begin_laws();
        self.server.law();
        for _ in rt.forever() {
            let turned = self.turn(rt, gate, board, out);
            self.server.law();
            match turned {
                Ok(false) => {}
                Ok(true) => return ServeEnd::Done,
                Err(stop) => return self.end_of(stop),
            }
        }
        unreachable!()
    }

    // How a run ends that breaks off so.
    fn end_of(&self, stop: TurnStop) -> ServeEnd
        ensures { result ≡ end_of stop self.now.server.desk.worn }
    {
        match stop {
            TurnStop::Board => ServeEnd::BoardFault,
            TurnStop::Write => ServeEnd::WriteFault,
            TurnStop::Stopped => stopped_end(self.server.is_worn()),
        }
    }
}

// How a run ends that stops, by whether the hall was found worn.
fn stopped_end(worn: bool) -> ServeEnd
    ensures { result ≡ stopped_end worn }
{
    if worn {
        ServeEnd::Worn
    } else {
        ServeEnd::NoMemory
    }
}
