// What was taken out is sent.
ghost use Rattle.std.specs.Prelude.{◌≡◌, ◌≢◌, ◌++◌, Ok, false, true, IfOk, OnErr, OnOk, length, ◌<◌};
ghost use Rattle.maple_io.specs.Boards.{NoBoardFailed};
ghost use Rattle.board_lines.specs.Queues.{AsksOnce, InStep};
ghost use Rattle.board_lines.specs.Deliveries.{Breaks, GivesOthersNone, IsTold, Lacks, OnlySends, Reaches, SendsAll, SendsRest, Stands, is_failed};

use crate::{Outbox, SendQueue};
use maple_base::NoMemory;
use maple_io::{Board, Sent};

/// How far bytes were sent.
#[derive(Clone, Copy, Debug, PartialEq, Eq)]
pub enum Reach {
    /// All of them.
    All,
    /// The last send found no room. What is left is tried again at the next delivery.
    NotYet,
    /// A send failed, now or before. Nothing is sent any more.
    Failed,
}

/// Takes out what there is for a connection, and sends all that wasn't sent yet, up to a send that
/// finds no room or fails. Of a send that fails the outbox is told, once. Behind it a delivery does
/// nothing.
///
/// # Errors
///
/// `NoMemory`: for what is to be taken out, or in a send. What was taken out and not sent is in the
/// queue, and the next delivery goes on with it.
pub fn deliver<U: Outbox, B: Board>(
    outbox: &mut U,
    board: &mut B,
    queue: &mut SendQueue,
) -> Result<Reach, NoMemory>
    requires step { InStep queue.old (U.tells outbox.old) (B.tells board.old).log }
    ensures step { InStep queue.new (U.tells outbox.new) (B.tells board.new).log }
    ensures number { queue.new.number ≡ queue.old.number }
    ensures others { GivesOthersNone queue.old.number (U.tells outbox.old) (U.tells outbox.new) }
    ensures asked { queue.old.failed ≡ false → OnOk result (AsksOnce queue.old.number (U.tells outbox.old) (U.tells outbox.new)) }
    ensures lacks { OnErr result (Lacks queue.old queue.new (U.tells outbox.old) (U.tells outbox.new) (B.tells board.old) (B.tells board.new)) }
    ensures acts { OnlySends queue.old.number (B.tells board.old).log (B.tells board.new).log }
    ensures reach { IfOk result (λ reach. Reaches reach queue.new (B.tells board.old).log (B.tells board.new).log) }
    ensures failed { queue.new.failed ≡ is_failed result }
    ensures told { IsTold queue.old queue.new (U.tells outbox.old) (U.tells outbox.new) }
    ensures breaks { Breaks queue.old queue.new (B.tells board.old) (B.tells board.new) }
    ensures faults { NoBoardFailed (B.tells board.old) (B.tells board.new) }
    ensures behind { queue.old.failed ≡ true → Stands queue.old queue.new (U.tells outbox.old) (U.tells outbox.new) (B.tells board.old) (B.tells board.new) }
{
    if queue.failed() {
        return Ok(Reach::Failed);
    }
    queue.take_from(outbox)?;
    let reach = send_all(board, queue)?;
    if reach == Reach::Failed {
        outbox.gone(queue.number());
    }
    Ok(reach)
}

/// Sends all that wasn't sent yet, up to a send that finds no room or fails, which the queue tells from then on.
///
/// # Errors
///
/// `NoMemory`, in a send; the next one goes on.
pub fn send_all<B: Board>(board: &mut B, queue: &mut SendQueue) -> Result<Reach, NoMemory>
    requires whole { queue.old.failed ≡ false }
    ensures sends { SendsAll result queue.old queue.new (B.tells board.old) (B.tells board.new) }
{
    let reach = send_rest(board, queue)?;
    if reach == Reach::Failed {
        queue.fail();
    }
    Ok(reach)
}

// Sends what wasn't sent yet.
fn send_rest<B: Board>(board: &mut B, queue: &mut SendQueue) -> Result<Reach, NoMemory>
    ensures { SendsRest result queue.old queue.new (B.tells board.old) (B.tells board.new) }
{
    while !queue.is_empty() {
        match queue.send_once(board) {
            Sent::Took(_) => {}
            Sent::NotYet => return Ok(Reach::NotYet),
            Sent::Failed => return Ok(Reach::Failed),
            Sent::NoMemory => return Err(NoMemory),
        }
    }
    Ok(Reach::All)
}
