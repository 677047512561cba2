// A command is run under its policy.
ghost use Rattle.std.specs.Prelude.{◌≡◌, ◌≢◌, ◌+◌, ◌<◌, ◌^◌, false, length, map};
ghost use Rattle.command_words.specs.Words.{IsCommand};
ghost use Rattle.maple_io.specs.Boards.{BoardFailed, NoBoardFailed};
ghost use Rattle.maple_io.specs.Views.{NoWriteFailed, WriteFailed};
ghost use Rattle.sim_steps.specs.Showing.{AllIdle};
ghost use Rattle.maple_top.specs.Ends.{IsBoardSpared};
ghost use Rattle.maple_top.specs.Outcomes.{switches};
ghost use Rattle.maple_top.specs.Running.{EndsPolicy, RunsTexts, read_texts};
ghost use Rattle.maple_top.specs.Texts.{serves, simulates};

use crate::policies::{PolicyStop, policy_of, put_policy, refuse_policy};
use crate::serving::serve;
use crate::simulating::{simulate, sum_up};
use crate::status::Status;
use crate::texts::Texts;
use command_words::Command;
use device_port::Device;
use maple_io::{Board, Sink};
use packet_workers::Gate;
use policy_lang::Policy;
use std::alloc::Global;
use std::sync::Wait;
use std::thread::Threads;

/// Runs a command over these texts. Where that of the policy is of none, it writes the line that says
/// where and why.
pub fn run_texts<R: Threads + Wait + Sync, D: Device, G: Gate + Sync, B: Board, O: Sink>(
    rt: &R,
    alloc: Global,
    command: Command,
    texts: &Texts<'_>,
    all: &mut [D],
    gate: &G,
    board: &mut B,
    to: &mut O,
) -> Status
    requires ranges { IsCommand command }
    requires idle { AllIdle (map D.meaning all.old) }
    requires numbers { texts.now.first_line + length texts.now.script.now < 2 ^ 32 }
    ensures run { RunsTexts command (read_texts texts.now) (switches (map D.meaning all.old) (B.tells board.old))
        (switches (map D.meaning all.new) (B.tells board.new)) (O.tells to.old) (O.tells to.new) result }
    ensures uncalled { simulates command ≡ false → map D.meaning all.new ≡ map D.meaning all.old }
    ensures unserved { serves command ≡ false → B.tells board.new ≡ B.tells board.old }
    ensures refused { result ≡ Status.Policy → B.tells board.new ≡ B.tells board.old }
    ensures spared { result ≢ Status.WriteFault → NoWriteFailed (O.tells to.old) (O.tells to.new) }
    ensures fault { result ≡ Status.WriteFault → WriteFailed (O.tells to.old) (O.tells to.new) }
    ensures board_fault { result ≡ Status.BoardFault → BoardFailed (B.tells board.old) (B.tells board.new) }
    ensures board_spared { IsBoardSpared result → NoBoardFailed (B.tells board.old) (B.tells board.new) }
{
    match policy_of(alloc, texts.policy) {
        Ok(policy) => run_policy(rt, alloc, command, policy, texts, all, gate, board, to),
        Err(PolicyStop::Refused(line)) => refuse_policy(alloc, to, &line),
        Err(PolicyStop::NoMemory) => Status::NoMemory,
    }
}

// Runs a command under this policy.
fn run_policy<R: Threads + Wait + Sync, D: Device, G: Gate + Sync, B: Board, O: Sink>(
    rt: &R,
    alloc: Global,
    command: Command,
    policy: Policy,
    texts: &Texts<'_>,
    all: &mut [D],
    gate: &G,
    board: &mut B,
    to: &mut O,
) -> Status
    requires ranges { IsCommand command }
    requires idle { AllIdle (map D.meaning all.old) }
    requires numbers { texts.now.first_line + length texts.now.script.now < 2 ^ 32 }
    ensures run { EndsPolicy command policy (read_texts texts.now) (switches (map D.meaning all.old) (B.tells board.old))
        (switches (map D.meaning all.new) (B.tells board.new)) (O.tells to.old) (O.tells to.new) result }
    ensures uncalled { simulates command ≡ false → map D.meaning all.new ≡ map D.meaning all.old }
    ensures unserved { serves command ≡ false → B.tells board.new ≡ B.tells board.old }
    ensures spared { result ≢ Status.WriteFault → NoWriteFailed (O.tells to.old) (O.tells to.new) }
    ensures fault { result ≡ Status.WriteFault → WriteFailed (O.tells to.old) (O.tells to.new) }
    ensures board_fault { result ≡ Status.BoardFault → BoardFailed (B.tells board.old) (B.tells board.new) }
    ensures board_spared { IsBoardSpared result → NoBoardFailed (B.tells board.old) (B.tells board.new) }
{
    match command {
        Command::Sim(settings) => simulate(rt, alloc, policy, settings, texts, all, gate, to),
        Command::Check => put_policy(alloc, &policy, to),
        Command::Gen { settings, .. } => sum_up(rt, alloc, policy, settings, texts, all, gate, to),
        Command::Serve {
            listen,
            control,
            settings,
        } => serve(
            rt, alloc, policy, settings, listen, control, texts, gate, board, to,
        ),
    }
}
