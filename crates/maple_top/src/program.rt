// The program, from a reader to a writer of std.
ghost use Rattle.std.specs.Prelude.{◌≡◌, ◌≢◌, ◌≤◌, ◌+◌, [], true, length, map, IfOk, OnErr, OnOk};
ghost use Rattle.maple_base.specs.Counts.{HasRisen};
ghost use Rattle.maple_io.specs.Adapters.{answers_of, read_faults, took_of, write_faults};
ghost use Rattle.maple_io.specs.Answers.{fails, given};
ghost use Rattle.maple_io.specs.Boards.{BoardFailed, NoBoardFailed};
ghost use Rattle.maple_io.specs.Fronts.{IsFront};
ghost use Rattle.sim_steps.specs.Showing.{AllIdle, AllKeep};
ghost use Rattle.maple_top.specs.Due.{AreReading, AreServing, IsExact, IsReading};
ghost use Rattle.maple_top.specs.Ends.{IsAside, IsBoardSpared, IsUnhindered};
ghost use Rattle.maple_top.specs.Program.{Reports, ResultsIn, RunsOver, device_at, devices_to, program_devices};
ghost use Rattle.maple_top.specs.Statuses.{last_line};

use crate::devices::{DEVICES, program_device};
use crate::status::Status;
use crate::top::maple;
use device_port::Device;
use maple_base::{NoMemory, Words};
use maple_io::{Board, ReadSource, Sink, Source, WriteSink};
use packet_workers::Open;
use std::alloc::{AllocError, Global};
use std::io::{Read, Write};
use std::sync::Wait;
use std::thread::Threads;

/// Runs Maple with the words of a command line, from a reader to a writer of std, over the devices of
/// the program, which it makes, and a board. The reader, the writer and the board may be any: what is
/// said of the input speaks of the bytes that the source gave, what is said of the report of those that
/// the sink took, and what is said of connections of the board's log.
pub fn run_program<R: Threads + Wait + Copy + Send + Sync, I: Read, W: Write, B: Board>(
    rt: &R,
    alloc: Global,
    words: &Words,
    input: &mut ReadSource<I>,
    output: &mut WriteSink<W>,
    board: &mut B,
) -> Status
    // Nothing was read or written yet.
    requires unread { answers_of input.old ≡ [] }
    requires unwritten { took_of output.old ≡ [] }

    // The headline: what was written is the report of a run that is due, and right.
    ensures done { result ≡ Status.Done → Reports Status.Done words.now (answers_of input.new)
        (B.tells board.old).log (B.tells board.new).log (took_of output.new) }

    // The same of one up to its first refused line.
    ensures script { result ≡ Status.Script → Reports Status.Script words.now (answers_of input.new)
        (B.tells board.old).log (B.tells board.new).log (took_of output.new) }

    // With each status: what was given, and what was written.
    ensures results { ResultsIn result words.now (answers_of input.new) (B.tells board.old) (B.tells board.new) (took_of output.new) }

    // Each status comes exactly where it is due, but for a fault, want of memory or a worn hall.
    ensures exact { IsExact result (length program_devices) words.now (given (answers_of input.new)) }

    // How far the input is read, and what a failed read leaves to write.
    ensures reading { IsReading (answers_of input.new) }
    ensures unread { ¬ (AreReading words.now) → answers_of input.new ≡ [] }
    ensures first { fails (answers_of input.new) ≡ true → IsFront (took_of output.new) (last_line Status.ReadFault) }

    // A fault is one of the reader, the writer or the board.
    ensures read_fault { result ≡ Status.ReadFault → HasRisen (read_faults input.old) (read_faults input.new) }
    ensures reads_spared { IsUnhindered result → read_faults input.new ≡ read_faults input.old }
    ensures reads_count { read_faults input.old ≤ read_faults input.new }
    ensures write_fault { result ≡ Status.WriteFault → HasRisen (write_faults output.old) (write_faults output.new) }
    ensures writes_spared { result ≢ Status.WriteFault → write_faults output.new ≡ write_faults output.old }
    ensures board_fault { result ≡ Status.BoardFault → BoardFailed (B.tells board.old) (B.tells board.new) }
    ensures board_spared { IsBoardSpared result → NoBoardFailed (B.tells board.old) (B.tells board.new) }

    // Only `serve` calls the board, and only some statuses come behind a call.
    ensures board_aside { IsAside result → B.tells board.new ≡ B.tells board.old }
    ensures unserved { ¬ (AreServing words.now) → B.tells board.new ≡ B.tells board.old }

    // Each device of the program keeps the specification of a switch, and no message waits in it at first.
    ensures keep { AllKeep program_devices }
    ensures idle { AllIdle program_devices }
{
    run_over(rt, alloc, words, input, output, board)
}

// Runs these words from a source to a sink, over the devices of the program and a board.
fn run_over<R: Threads + Wait + Copy + Send + Sync, I: Source, O: Sink, B: Board>(
    rt: &R,
    alloc: Global,
    words: &Words,
    from: &mut I,
    to: &mut O,
    board: &mut B,
) -> Status
    ensures ran { RunsOver (I.tells from.old) (I.tells from.new) (O.tells to.old) (O.tells to.new) (B.tells board.old) (B.tells board.new) words.now result }
{
    match run_made(rt, alloc, words, from, to, board) {
        Ok(status) => status,
        Err(NoMemory) => Status::NoMemory,
    }
}

// The same, where the devices find memory; where they find none, nothing is done.
fn run_made<R: Threads + Wait + Copy + Send + Sync, I: Source, O: Sink, B: Board>(
    rt: &R,
    alloc: Global,
    words: &Words,
    from: &mut I,
    to: &mut O,
    board: &mut B,
) -> Result<Status, NoMemory>
    ensures ran { IfOk result (RunsOver (I.tells from.old) (I.tells from.new) (O.tells to.old) (O.tells to.new)
        (B.tells board.old) (B.tells board.new) words.now) }
    ensures unread { OnErr result (I.tells from.new ≡ I.tells from.old) }
    ensures unwritten { OnErr result (O.tells to.new ≡ O.tells to.old) }
    ensures unserved { OnErr result (B.tells board.new ≡ B.tells board.old) }
{
    let mut devices: Vec<Box<dyn Device + Send>> = Vec::new(alloc);
    let mut place = 0;
    while place < DEVICES {
        let device = Box::new(alloc, program_device(alloc, place + 1))?;
        push_next(&mut devices, device, place)?;
        place += 1;
    }
    Ok(maple(rt, alloc, words, from, to, &mut devices, &Open, board))
}

// Puts the program's next device behind those of the places up to this one.
fn push_next<D: Device>(all: &mut Vec<D>, device: D, place: u64) -> Result<(), AllocError>
    requires others { map D.meaning all.old.items ≡ devices_to place }
    requires device { D.meaning device ≡ device_at (place + 1) }
    ensures { OnOk result (map D.meaning all.new.items ≡ devices_to (place + 1)) }
{
    all.push(device)?;
    Ok(())
}
