// What a board over sockets does with peers that close, reset, don't read, or are many.
ghost use Rattle.std.specs.Prelude.{◌≡◌};

use crate::stage::{Does, Step, connect, goes_so, listen, next_turn, open_stage};
use maple_io::{Board, Sent, Turn};
use socket_board::SocketBoard;
use std::io::{Read, Write};
use std::test::Fail;

const MEGABYTE: usize = 1 << 20;

// What is sent on each of two connections comes there, and so does what comes back.
const TWO_CLIENTS: [Step; 12] = [
    Step::Connects(0),
    Step::Gives(Turn::Opened(1), ""),
    Step::Connects(0),
    Step::Gives(Turn::Opened(2), ""),
    Step::Peer(1, Does::Writes("second")),
    Step::Gives(Turn::Bytes(2, 6), "second"),
    Step::Peer(0, Does::Writes("one")),
    Step::Gives(Turn::Bytes(1, 3), "one"),
    Step::Sends(1, "to one", Sent::Took(6)),
    Step::Sends(2, "to two", Sent::Took(6)),
    Step::Peer(1, Does::Reads("to two")),
    Step::Peer(0, Does::Reads("to one")),
];

// A peer closes within a message, and hears the answer all the same.
const CLOSES: [Step; 8] = [
    Step::Connects(0),
    Step::Peer(0, Does::Writes("five ")),
    Step::Peer(0, Does::Shuts),
    Step::Gives(Turn::Opened(1), ""),
    Step::Gives(Turn::Bytes(1, 5), "five "),
    Step::Ends(1),
    Step::Sends(1, "answer", Sent::Took(6)),
    Step::Peer(0, Does::Reads("answer")),
];

// What a peer has not read when it closes makes the system reset the connection.
const RESETS: [Step; 7] = [
    Step::Connects(0),
    Step::Gives(Turn::Opened(1), ""),
    Step::Sends(1, "half read", Sent::Took(9)),
    Step::Peer(0, Does::Reads("half")),
    Step::Leaves,
    Step::Ends(1),
    Step::Sends(2, "nobody", Sent::Failed),
];

// The second connection is heard where the first has ended, within a line, which an LF ends.
const CONTROL: [Step; 8] = [
    Step::Connects(1),
    Step::Peer(0, Does::Writes("one\ntw")),
    Step::Connects(1),
    Step::Peer(1, Does::Writes("three\n")),
    Step::Gives(Turn::Control(6), "one\ntw"),
    Step::Peer(0, Does::Shuts),
    Step::Gives(Turn::Control(1), "\n"),
    Step::Gives(Turn::Control(6), "three\n"),
];

// A port in use, for switches and for control text, and both ports the same. The board goes on.
const REFUSES: [Step; 5] = [
    Step::Refuses(0, 2),
    Step::Refuses(2, 1),
    Step::Refuses(2, 2),
    Step::Connects(0),
    Step::Gives(Turn::Opened(1), ""),
];

// The board closes: its last words come, and then the end.
const LAST_WORDS: [Step; 4] = [
    Step::Connects(0),
    Step::LastWords("last"),
    Step::Peer(0, Does::Reads("last")),
    Step::Peer(0, Does::Ends),
];

#[test]
fn scripts(rt: HostRuntime) -> Result<(), Fail> {
    for steps in [
        TWO_CLIENTS.as_slice(),
        CLOSES.as_slice(),
        RESETS.as_slice(),
        CONTROL.as_slice(),
        REFUSES.as_slice(),
        LAST_WORDS.as_slice(),
    ] {
        let mut stage = open_stage(&rt)?;
        for step in steps {
            assert!(rt; goes_so(&rt, &mut stage, *step)?, "{step:?}");
        }
    }
    Ok(())
}

#[test]
fn a_megabyte_each_way(rt: HostRuntime) -> Result<(), Fail> {
    let mut room = [0u8; 8192];
    let mut board = SocketBoard::new(&rt, rt.alloc());
    let port = listen(&mut board)?;
    let mut peer = connect(&rt, port)?;
    peer.set_nonblocking(true)?;
    assert!(rt; next_turn(&mut board, &mut room) == Turn::Opened(1));

    let mut all = Vec::new(rt.alloc());
    for n in 0..MEGABYTE {
        all.push((n % 251) as u8)?;
    }
    let (mut there, mut back) = (Vec::new(rt.alloc()), Vec::new(rt.alloc()));
    let (mut to_board, mut to_peer) = (all.as_slice(), all.as_slice());
    for _ in 0..100_000 {
        if let Ok(n) = peer.write(to_board) {
            to_board = &to_board[n..];
        }
        if let Turn::Bytes(_, n) = board.next(&mut room) {
            there.extend_from_slice(&room[..n])?;
        }
        if !to_peer.is_empty() {
            if let Sent::Took(n) = board.send(1, to_peer) {
                to_peer = &to_peer[n..];
            }
        }
        if let Ok(n) = peer.read(&mut room) {
            back.extend_from_slice(&room[..n])?;
        }
        if there.len() >= MEGABYTE && back.len() >= MEGABYTE {
            break;
        }
    }
    assert!(rt; there.as_slice() == all.as_slice());
    assert!(rt; back.as_slice() == all.as_slice());
    Ok(())
}

#[test]
fn a_peer_that_never_reads(rt: HostRuntime) -> Result<(), Fail> {
    let mut room = [0u8; 64];
    let mut much = vec![in rt.alloc(); 7u8; MEGABYTE]?;
    let mut board = SocketBoard::new(&rt, rt.alloc());
    let port = listen(&mut board)?;
    let mut peer = connect(&rt, port)?;
    peer.set_nonblocking(true)?;
    assert!(rt; next_turn(&mut board, &mut room) == Turn::Opened(1));

    // There is no room any more. So its own bytes stay where they are, and it can send no more.
    let (mut full, mut stuck) = (false, false);
    for _ in 0..1000 {
        full = full || board.send(1, b"a few bytes of many") == Sent::NotYet;
        if !full {
            let _ = board.send(1, &much);
            continue;
        }
        assert!(rt; board.next(&mut room) == Turn::Idle);
        stuck = peer.write(&much).is_err();
        if stuck {
            break;
        }
    }
    assert!(rt; full && stuck);

    // It reads: there is room, and then its bytes come.
    for _ in 0..1000 {
        let _ = peer.read(&mut much);
        assert!(rt; board.next(&mut room) == Turn::Idle);
        full = board.send(1, b"more") == Sent::NotYet;
        if !full {
            break;
        }
    }
    assert!(rt; !full);
    assert!(rt; next_turn(&mut board, &mut room) == Turn::Bytes(1, 64));
    Ok(())
}

#[test]
fn seventy_connections_at_once(rt: HostRuntime) -> Result<(), Fail> {
    let mut stage = open_stage(&rt)?;
    for number in 1..=70u32 {
        assert!(rt; goes_so(&rt, &mut stage, Step::Connects(0))?);
        assert!(rt; goes_so(&rt, &mut stage, Step::Gives(Turn::Opened(number), ""))?);
    }
    for (peer, number) in (1..=70u32).enumerate() {
        assert!(rt; goes_so(&rt, &mut stage, Step::Peer(peer, Does::Writes("one")))?);
        assert!(rt; goes_so(&rt, &mut stage, Step::Gives(Turn::Bytes(number, 3), "one"))?);
    }
    Ok(())
}
