// The top call.
ghost use Rattle.std.specs.Prelude.{◌≡◌, ◌≢◌, ◌≤◌, length, map};
ghost use Rattle.maple_io.specs.Boards.{BoardFailed, NoBoardFailed};
ghost use Rattle.maple_io.specs.Views.{Heard, NoReadFailed, NoWriteFailed, WriteFailed};
ghost use Rattle.sim_driver.specs.Runs.{over};
ghost use Rattle.sim_steps.specs.Showing.{AllIdle};
ghost use Rattle.maple_top.specs.Due.{AreReading, AreServing, AreSimulating, AreWords, IsDueBy, IsExactBy, IsOrUnwritten};
ghost use Rattle.maple_top.specs.Due.{IsReading, IsUnread, ReadOver, ReadSome};
ghost use Rattle.maple_top.specs.Ends.{IsAside, IsBoardSpared, IsUnhindered, StopsAtFailure, StopsAtRead};
ghost use Rattle.maple_top.specs.Outcomes.{ResultsBy, switches};

use crate::finish::finish;
use crate::input::{ReadStop, read_all};
use crate::running::run_texts;
use crate::status::Status;
use crate::texts::{input_texts, made_texts};
use command_words::{Command, command_of};
use device_port::Device;
use gen_script::{length_law, make_script};
use maple_base::Words;
use maple_io::{Board, Sink, Source};
use packet_workers::Gate;
use std::alloc::Global;
use std::sync::Wait;
use std::thread::Threads;

/// Runs Maple with the words of a command line, over devices, which stand at places from 1 on, and a
/// board of connections.
///
/// The words `sim`, `check` and `serve` read the input to its end: a policy, a line `%%`, and a script.
/// `sim` runs the script over the controller's machine and the devices, and writes what comes of each
/// line, and then a last line. `check`, alone, writes the printed form of the policy, and looks at no
/// script. `gen N` reads nothing: it runs the script that the number N makes, under a policy of its own,
/// and writes the summary of its report. `serve` carries out the script, and then serves the switches of
/// the board and its control text, up to a line `quit` or the board's end, on the ports of `--listen`
/// and `--control`; it writes the report as it comes, and then a last line.
///
/// Options bound the steps that the policy may take for a packet (`--budget`), the rules of a switch
/// (`--capacity`) and the levels of their priorities (`--levels`), and say how many workers answer
/// packets beside the driver (`--workers`); each packet's work is told to the gate. Where the policy is
/// refused, where and why is written.
pub fn maple<R: Threads + Wait + Copy + Send + Sync, I: Source, O: Sink, G: Gate + Sync, B: Board>(
    rt: &R,
    alloc: Global,
    words: &Words,
    input: &mut I,
    output: &mut O,
    devices: &mut Vec<Box<dyn Device + Send>>,
    gate: &G,
    board: &mut B,
) -> Status
    // No message waits in any device.
    requires idle { AllIdle (map meaning devices.old.items) }

    // What comes of the words and the input: the status, what is written, and what the devices and the board's log are behind it.
    ensures results { ResultsBy (I.tells input.old) (I.tells input.new) (O.tells output.old) (O.tells output.new) words.now
        (switches (over meaning devices.old) (B.tells board.old)) (switches (over meaning devices.new) (B.tells board.new)) result }

    // Each status comes exactly where it is due, but for a fault, want of memory or a worn hall.
    ensures usage { ¬ (AreWords words.now) → IsOrUnwritten Status.Usage result }
    ensures due { IsDueBy (I.tells input.old) (I.tells input.new) result (length devices.old.items) words.now }
    ensures exact { IsExactBy (I.tells input.old) (I.tells input.new) result (length devices.old.items) words.now }

    // What was read: of words that read no input nothing; after a read that fails nothing but its line is written.
    ensures unread { ¬ (AreReading words.now) → I.tells input.new ≡ I.tells input.old }
    ensures read_fault { result ≡ Status.ReadFault → IsUnread (I.tells input.old) (I.tells input.new) }
    ensures too_long { result ≡ Status.TooLong → ReadOver (I.tells input.old) (I.tells input.new) }
    ensures read_some { ReadSome (I.tells input.old) (I.tells input.new) }
    ensures read_first { StopsAtRead (I.tells input.old) (I.tells input.new) (O.tells output.old) (O.tells output.new) }
    ensures read_failed { StopsAtFailure (I.tells input.old) (I.tells input.new) (O.tells output.old) (O.tells output.new) }
    ensures read_last { Heard (I.tells input.old) (I.tells input.new) IsReading }
    ensures reads_spared { IsUnhindered result → NoReadFailed (I.tells input.old) (I.tells input.new) }
    ensures reads_count { (I.tells input.old).failed ≤ (I.tells input.new).failed }

    // A write that fails.
    ensures write_fault { result ≡ Status.WriteFault → WriteFailed (O.tells output.old) (O.tells output.new) }
    ensures writes_spared { result ≢ Status.WriteFault → NoWriteFailed (O.tells output.old) (O.tells output.new) }

    // The devices and the board: only some words call them, and only some statuses come behind a call.
    ensures uncalled { ¬ (AreSimulating words.now) → over meaning devices.new ≡ over meaning devices.old }
    ensures unserved { ¬ (AreServing words.now) → B.tells board.new ≡ B.tells board.old }
    ensures aside { IsAside result → over meaning devices.new ≡ over meaning devices.old }
    ensures board_aside { IsAside result → B.tells board.new ≡ B.tells board.old }
    ensures board_fault { result ≡ Status.BoardFault → BoardFailed (B.tells board.old) (B.tells board.new) }
    ensures board_spared { IsBoardSpared result → NoBoardFailed (B.tells board.old) (B.tells board.new) }
{
    run_words(rt, alloc, words, input, output, devices, gate, board)
}

// Runs these words from a source to a sink, over all devices and a board.
fn run_words<R: Threads + Wait + Sync, D: Device, I: Source, O: Sink, G: Gate + Sync, B: Board>(
    rt: &R,
    alloc: Global,
    words: &Words,
    from: &mut I,
    to: &mut O,
    all: &mut [D],
    gate: &G,
    board: &mut B,
) -> Status
    requires idle { AllIdle (map D.meaning all.old) }
    ensures results { ResultsBy (I.tells from.old) (I.tells from.new) (O.tells to.old) (O.tells to.new) words.now
        (switches (map D.meaning all.old) (B.tells board.old)) (switches (map D.meaning all.new) (B.tells board.new)) result }
    ensures unread { ¬ (AreReading words.now) → I.tells from.new ≡ I.tells from.old }
    ensures over { result ≡ Status.TooLong → ReadOver (I.tells from.old) (I.tells from.new) }
    ensures some { ReadSome (I.tells from.old) (I.tells from.new) }
    ensures first { StopsAtRead (I.tells from.old) (I.tells from.new) (O.tells to.old) (O.tells to.new) }
    ensures failed { StopsAtFailure (I.tells from.old) (I.tells from.new) (O.tells to.old) (O.tells to.new) }
    ensures last { Heard (I.tells from.old) (I.tells from.new) IsReading }
    ensures reads { IsUnhindered result → NoReadFailed (I.tells from.old) (I.tells from.new) }
    ensures count { (I.tells from.old).failed ≤ (I.tells from.new).failed }
    ensures spared { result ≢ Status.WriteFault → NoWriteFailed (O.tells to.old) (O.tells to.new) }
    ensures fault { result ≡ Status.WriteFault → WriteFailed (O.tells to.old) (O.tells to.new) }
    ensures uncalled { ¬ (AreSimulating words.now) → map D.meaning all.new ≡ map D.meaning all.old }
    ensures unserved { ¬ (AreServing words.now) → B.tells board.new ≡ B.tells board.old }
    ensures board_aside { IsAside result → B.tells board.new ≡ B.tells board.old }
    ensures board_fault { result ≡ Status.BoardFault → BoardFailed (B.tells board.old) (B.tells board.new) }
    ensures board_spared { IsBoardSpared result → NoBoardFailed (B.tells board.old) (B.tells board.new) }
{
    let Some(command) = command_of(words) else {
        return finish(to, Status::Usage);
    };
    if let Command::Gen { number, .. } = command {
        let mut script = Vec::new(alloc);
        let Ok(()) = make_script(number, &mut script) else {
            return Status::NoMemory;
        };
        length_law();
        return run_texts(
            rt,
            alloc,
            command,
            &made_texts(&script),
            all,
            gate,
            board,
            to,
        );
    }
    match read_all(alloc, from) {
        Ok(text) => run_texts(
            rt,
            alloc,
            command,
            &input_texts(&text),
            all,
            gate,
            board,
            to,
        ),
        Err(ReadStop::Failed) => finish(to, Status::ReadFault),
        Err(ReadStop::TooLong) => finish(to, Status::TooLong),
        Err(ReadStop::NoMemory) => Status::NoMemory,
    }
}
