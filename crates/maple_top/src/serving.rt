// Switches of a board are served.
ghost use Rattle.std.specs.Prelude.{◌≡◌, ◌≢◌, ◌≤◌};
ghost use Rattle.command_words.specs.declared.words.Command.{Command};
ghost use Rattle.machine_desk.specs.Crews.{most_workers};
ghost use Rattle.machine_steps.specs.Sound.{AreInRange};
ghost use Rattle.maple_io.specs.Boards.{BoardFailed, NoBoardFailed};
ghost use Rattle.maple_io.specs.Views.{NoWriteFailed, WriteFailed};
ghost use Rattle.maple_top.specs.Ends.{IsBoardSpared};
ghost use Rattle.maple_top.specs.Running.{EndsServing, read_texts};

use crate::closing::conclude;
use crate::status::Status;
use crate::texts::Texts;
use maple_base::Settings;
use maple_io::{Board, Sink};
use packet_workers::Gate;
use policy_lang::Policy;
use serve_pump::run_serve;
use std::alloc::Global;
use std::sync::Wait;
use std::thread::Threads;

/// Serves the switches of a board that listens on these ports, behind a start script, and writes the
/// report as it comes, and the last line.
pub fn serve<R: Threads + Wait + Sync, G: Gate + Sync, B: Board, O: Sink>(
    rt: &R,
    alloc: Global,
    policy: Policy,
    settings: Settings,
    listen: u16,
    control: u16,
    texts: &Texts<'_>,
    gate: &G,
    board: &mut B,
    to: &mut O,
) -> Status
    requires ranges { AreInRange settings }
    requires workers { settings.workers ≤ most_workers }
    ensures run { EndsServing (Command.Serve listen control settings) policy (read_texts texts.now)
        (B.tells board.old) (B.tells board.new) (O.tells to.old) (O.tells to.new) result }
    ensures spared { result ≢ Status.WriteFault → NoWriteFailed (O.tells to.old) (O.tells to.new) }
    ensures fault { result ≡ Status.WriteFault → WriteFailed (O.tells to.old) (O.tells to.new) }
    ensures board_fault { result ≡ Status.BoardFault → BoardFailed (B.tells board.old) (B.tells board.new) }
    ensures board_spared { IsBoardSpared result → NoBoardFailed (B.tells board.old) (B.tells board.new) }
{
    let end = run_serve(
        rt,
        alloc,
        policy,
        texts.script,
        texts.first_line,
        settings,
        listen,
        control,
        gate,
        to,
        board,
    );
    conclude(alloc, end, to)
}
