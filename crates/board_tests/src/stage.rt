// A board over sockets and its peers, all in one thread, and the steps of a script.
ghost use Rattle.std.specs.Prelude.{◌≡◌, ◌<◌, ℕ, IfOk, true, length};
ghost use Rattle.maple_io.specs.Boards.{was_opened};
ghost use Rattle.maple_io.specs.Turns.{TurnsWithin};

use maple_io::{Board, Sent, Started, Turn};
use socket_board::SocketBoard;
use std::io;
use std::io::{ErrorKind, Read, Write};
use std::net::{Ipv4Addr, Shutdown, SocketAddr, TcpStream};
use std::test::Fail;
use std::time::Duration;

// Ports are tried from this one on, two at a time.
const FIRST_PORT: u16 = 26_000;

// How many calls of `next` may give nothing, one after the other: some three seconds.
const PATIENCE: usize = 400;

/// Listens on the first port that is free, with the one behind it for control text.
pub fn listen(board: &mut SocketBoard<'_, HostRuntime>) -> io::Result<u16>
    ensures { IfOk result (λ port. port < 27_000) }
{
    for n in 0..400u16 {
        let port = FIRST_PORT + 2 * n;
        if let Started::Ready = board.start(port, port + 1) {
            return Ok(port);
        }
    }
    Err(io::Error::from(ErrorKind::AddrInUse))
}

/// A peer of the board. Its calls wait for three seconds at most.
pub fn connect(rt: &HostRuntime, port: u16) -> io::Result<TcpStream> {
    let peer = TcpStream::connect(rt, SocketAddr::from((Ipv4Addr::LOCALHOST, port)))?;
    peer.set_read_timeout(Some(Duration::from_secs(3)))?;
    Ok(peer)
}

/// The next turn that isn't Idle, where one comes in time.
#[tactic(auto, using(crate::proofs::Opened::opened_now))]
pub fn next_turn(board: &mut SocketBoard<'_, HostRuntime>, into: &mut [u8]) -> Turn
    requires { 0 < length into.old }
    ensures room { TurnsWithin result (length into.old) }
    ensures len { length into.new ≡ length into.old }
    ensures opened { (c : ℕ) → result ≡ Turn.Opened c → was_opened c board.new.log ≡ true }
{
    for _ in 0..PATIENCE {
        let turn = board.next(into);
        if turn != Turn::Idle {
            return turn;
        }
    }
    Turn::Idle
}

/// What a peer does.
#[derive(Clone, Copy, Debug)]
pub enum Does {
    /// It writes this.
    Writes(&'static str),
    /// It reads just this.
    Reads(&'static str),
    /// It has no more to write.
    Shuts,
    /// It reads, and finds the end.
    Ends,
}

/// A step of a script. Peers have the numbers 0, 1, 2 and so on, in the order in which they connect.
#[derive(Clone, Copy, Debug)]
pub enum Step {
    /// A peer connects as a switch, or with control text on the port behind that.
    Connects(u16),
    /// A peer does this.
    Peer(usize, Does),
    /// The last peer is gone.
    Leaves,
    /// The board's next turn is this, with these bytes.
    Gives(Turn, &'static str),
    /// The next turn tells that a connection ended. A break is counted only where it is Broken.
    Ends(u32),
    /// The board sends this, and answers so.
    Sends(u32, &'static str, Sent),
    /// The next turn opens a connection. The board sends this on it, and closes it.
    LastWords(&'static str),
    /// Another board can't start on these two ports, counted from the board's own.
    Refuses(u16, u16),
}

/// A board that listens, and its peers.
#[derive(Drop)]
pub struct Stage<'a> {
    board: SocketBoard<'a, HostRuntime>,
    port: u16,
    peers: Vec<TcpStream>,
}

/// A new board, and no peer yet.
pub fn open_stage(rt: &HostRuntime) -> io::Result<Stage<'_>> {
    let mut board = SocketBoard::new(rt, rt.alloc());
    let port = listen(&mut board)?;
    Ok(Stage {
        board,
        port,
        peers: Vec::new(rt.alloc()),
    })
}

/// Takes a step, and tells whether it goes as the script says.
pub fn goes_so(rt: &HostRuntime, stage: &mut Stage<'_>, step: Step) -> Result<bool, Fail> {
    let mut room = [0u8; 64];
    match step {
        Step::Connects(port) => {
            let peer = connect(rt, stage.port.saturating_add(port))?;
            stage.peers.push(peer)?;
            Ok(true)
        }
        Step::Peer(number, does) => match stage.peers.get_mut(number) {
            Some(peer) => does_so(peer, does),
            None => Ok(false),
        },
        Step::Leaves => Ok(stage.peers.pop().is_some()),
        Step::Gives(turn, text) => {
            let given = next_turn(&mut stage.board, &mut room);
            Ok(given == turn && room.starts_with(text.as_bytes()))
        }
        Step::Ends(connection) => {
            let before = stage.board.breaks();
            let ended = next_turn(&mut stage.board, &mut room);
            let more = stage.board.breaks() != before;
            let broken = ended == Turn::Broken(connection);
            Ok(broken == more && (broken || ended == Turn::Closed(connection)))
        }
        Step::Sends(connection, text, sent) if !text.is_empty() => {
            Ok(stage.board.send(connection, text.as_bytes()) == sent)
        }
        Step::Sends(..) => Ok(false),
        Step::LastWords(text) => Ok(!text.is_empty() && last_words(&mut stage.board, text)),
        Step::Refuses(switches, control) => {
            let port = stage.port;
            Ok(refuses(
                rt,
                port.saturating_add(switches),
                port.saturating_add(control),
            ))
        }
    }
}

// Opens a connection, sends last words on it, and closes it.
#[tactic(auto, using(crate::proofs::Opened::opened_still))]
fn last_words(board: &mut SocketBoard<'_, HostRuntime>, text: &str) -> bool
    requires { 0 < length text.now }
{
    let mut room = [0u8; 8];
    let Turn::Opened(connection) = next_turn(board, &mut room) else {
        return false;
    };
    let sent = board.send(connection, text.as_bytes());
    board.close(connection);
    sent == Sent::Took(text.len())
}

// Whether a board can't start on these ports, and fails at each call behind that.
fn refuses(rt: &HostRuntime, switches: u16, control: u16) -> bool {
    let mut room = [0u8; 8];
    let mut board = SocketBoard::new(rt, rt.alloc());
    let started = board.start(switches, control);
    let turn = board.next(&mut room);
    let sent = board.send(1, b"early");
    let failed = started == Started::Failed && turn == Turn::Failed && sent == Sent::Failed;
    failed && board.faults() == 2 && board.breaks() == 1
}

// What a peer does, and whether it reads what it is to read.
fn does_so(peer: &mut TcpStream, does: Does) -> Result<bool, Fail> {
    let mut room = [0u8; 64];
    match does {
        Does::Writes(text) => peer.write_all(text.as_bytes())?,
        Does::Shuts => peer.shutdown(Shutdown::Write)?,
        Does::Ends => return Ok(peer.read(&mut room)? == 0),
        Does::Reads(text) => {
            let Some(room) = room.get_mut(..text.len()) else {
                return Ok(false);
            };
            peer.read_exact(room)?;
            return Ok(room.starts_with(text.as_bytes()));
        }
    }
    Ok(true)
}
