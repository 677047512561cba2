// The program over sockets of 127.0.0.1, with a switch and a control client in another thread.
use crate::running::{BARRIER_REQUEST, Outcome, SENT_OUT, booted_and, serve};
use maple_base::NoMemory;
use maple_io::{Board, Started};
use maple_top::Status;
use packet_workers::Open;
use socket_board::SocketBoard;
use std::alloc::{AllocError, Global};
use std::io::{ErrorKind, Read, Write};
use std::net::{Ipv4Addr, Net, SocketAddr, TcpStream};
use std::sync::Wait;
use std::test::Fail;
use std::thread::Threads;
use std::time::Duration;
use std::{io, thread};

// Ports are tried from this one on, two at a time.
const FIRST_PORT: u16 = 27_000;

// How often a peer tries to connect, 20 ms apart.
const TRIES: u32 = 500;

const REPORT: &str = "open c1\nstate 1 pruned 0\nready c1 s1\nanswer s1 1 out 2 learned\nend\n";

// What the switch says, and how many bytes it hears then.
#[derive(Clone, Copy)]
struct Turn {
    says: &'static [u8],
    hears: usize,
}

const TURNS: [Turn; 4] = [
    // HELLO: HELLO and FEATURES_REQUEST.
    Turn {
        says: b"\x01\x00\x00\x08\x00\x00\x00\x00",
        hears: 16,
    },
    // FEATURES_REPLY of switch 1: SET_CONFIG, the deletion of all rules, BARRIER_REQUEST.
    Turn {
        says: b"\x01\x06\x00\x20\x00\x00\x00\x00\x00\x00\x00\x00\x00\x00\x00\x01\x00\x00\x00\x00\x00\x00\x00\x00\x00\x00\x00\x00\x00\x00\x00\x00",
        hears: 92,
    },
    // BARRIER_REPLY: nothing.
    Turn {
        says: b"\x01\x13\x00\x08\x00\x00\x00\x02",
        hears: 0,
    },
    // PACKET_IN of 54 bytes to TCP port 80 that came in by port 1: PACKET_OUT, the barrier rule, BARRIER_REQUEST.
    Turn {
        says: b"\x01\x0a\x00\x48\x00\x00\x00\x00\xff\xff\xff\xff\x00\x36\x00\x01\x00\x00\
\x00\x00\x00\x00\x00\x00\x00\x00\x00\x00\x00\x00\x08\x00\x45\x00\x00\x28\x00\x00\x00\x00\x40\x06\x00\x00\x00\x00\x00\x00\x00\x00\x00\x00\
\x00\x00\x00\x50\x00\x00\x00\x00\x00\x00\x00\x00\x50\x00\x00\x00\x00\x00\x00\x00",
        hears: 166,
    },
];

// Behind what it hears until it is ready: the packet, the barrier rule, BARRIER_REQUEST.
const HEARD: [&[u8]; 3] = [
    SENT_OUT,
    b"\x01\x0e\x00\x50\x00\x00\x00\x03\x00\x38\x20\x4f\x00\x00\x00\x00\x00\x00\x00\x00\x00\x00\x00\x00\x00\x00\x00\x00\x00\x00\x08\x00\
\x00\x06\x00\x00\x00\x00\x00\x00\x00\x00\x00\x00\x00\x00\x00\x16\x00\x00\x00\x00\x00\x00\x00\x00\x00\x00\x00\x00\x00\x00\x00\x02\
\xff\xff\xff\xff\xff\xff\x00\x00\x00\x00\x00\x08\xff\xfd\xff\xff",
    BARRIER_REQUEST,
];

// A port that is free, and so is the one behind it.
fn free_port(rt: &HostRuntime) -> io::Result<u16> {
    for n in 0..400u16 {
        let port = FIRST_PORT + 2 * n;
        let mut board = SocketBoard::new(rt, rt.alloc());
        if let Started::Ready = board.start(port, port + 1) {
            return Ok(port);
        }
    }
    Err(io::Error::from(ErrorKind::AddrInUse))
}

// A peer, once there is who listens. Its calls wait for ten seconds at most.
fn connect(rt: &HostRuntime, port: u16) -> io::Result<TcpStream> {
    for _ in 0..TRIES {
        if let Ok(peer) = TcpStream::connect(rt, SocketAddr::from((Ipv4Addr::LOCALHOST, port))) {
            peer.set_read_timeout(Some(Duration::from_secs(10)))?;
            return Ok(peer);
        }
        thread::sleep(rt, Duration::from_millis(20));
    }
    Err(io::Error::from(ErrorKind::ConnectionRefused))
}

// All that a switch hears, up to the end, while it takes its turns and the control client says `quit` behind them.
fn heard(rt: &HostRuntime, port: u16) -> io::Result<Vec<u8>> {
    let mut all = Vec::new(rt.alloc());
    let mut switch = connect(rt, port)?;
    let mut client = connect(rt, port.saturating_add(1))?;
    let talked = talk(&mut switch, &mut all);
    client.write_all(b"quit\n")?;
    talked?;
    switch.read_to_end(&mut all)?;
    Ok(all)
}

fn talk(switch: &mut TcpStream, all: &mut Vec<u8>) -> io::Result<()> {
    let mut room = [0u8; 256];
    for turn in TURNS {
        switch.write_all(turn.says)?;
        if let Some(room) = room.get_mut(..turn.hears) {
            switch.read_exact(room)?;
            all.extend_from_slice(room)?;
        }
    }
    Ok(())
}

fn over_sockets<R: Threads + Wait + Net + Copy + Send + Sync>(
    rt: &R,
    alloc: Global,
    words: &str,
) -> Result<Outcome, NoMemory> {
    let mut board = SocketBoard::new(rt, alloc);
    serve(rt, alloc, words, &Open, &mut board)
}

#[test]
fn a_switch_and_a_client_over_sockets(rt: HostRuntime) -> Result<(), Fail> {
    let port = free_port(&rt)?;
    let control = port.saturating_add(1);
    let words = format!(in rt.alloc(); "serve --listen {port} --control {control}")?;
    let (came, all) = thread::join(
        &rt,
        || over_sockets(&rt, rt.alloc(), words.as_str()),
        || heard(&rt, port),
    );
    let (came, all) = (came?, all?);
    assert_eq!(&rt; came.status, Status::Done);
    assert_eq!(&rt; came.text(), REPORT);
    assert_eq!(&rt; all.len(), 274);
    assert!(&rt; all == booted_and(rt.alloc(), &HEARD)?);
    Ok(())
}
