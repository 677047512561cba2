// The connections of switches, each with a number.
ghost use Rattle.std.specs.Prelude.{◌≡◌, ◌≢◌, ◌<◌, ℕ, length, vec_len, IfSome};
ghost use Rattle.maple_io.specs.Turns.{SendsWithin, TurnsWithin};
ghost use Rattle.socket_board.specs.Numbers.{next_number};

use crate::listening::Listening;
use crate::waits::Watched;
use maple_io::{Sent, Turn};
use mio::net::TcpStream;
use mio::{Interest, Registry, Token};
use std::alloc::Global;
use std::io::{ErrorKind, Read, Write};
use std::net::Shutdown;

/// Whether a connection is read from.
#[derive(Clone, Copy, PartialEq, Eq)]
enum Reading {
    /// It is.
    Open,
    /// Not until a send takes something: the last one answered that there was no room.
    Held,
    /// No more: it was closed by its peer, or it broke.
    Over,
}

/// A connection.
#[derive(Drop)]
struct Link {
    number: u32,
    watched: Watched<TcpStream>,
    reading: Reading,
}

impl Link {
    // A connection with this number, watched under it. Small writes are sent without delay.
    fn new(registry: &Registry, number: u32, stream: TcpStream) -> Link {
        let _ = stream.set_nodelay(true);
        let both = Interest::READABLE | Interest::WRITABLE;
        Link {
            number,
            watched: Watched::new(registry, stream, Token(number as usize), both),
            reading: Reading::Open,
        }
    }

    // Reads what came. What is left behind that is told anew.
    fn read(&mut self, registry: &Registry, closing: bool, into: &mut [u8]) -> Turn
        requires { 0 < length into.old }
        ensures room { TurnsWithin result (length into.old) }
        ensures len { length into.new ≡ length into.old }
        ensures number { next_number 0 0 result }
    {
        if self.reading != Reading::Open {
            return Turn::Idle;
        }
        match self.watched.socket.read(into) {
            Ok(0) => {
                self.reading = Reading::Over;
                Turn::Closed(self.number)
            }
            Ok(n) => {
                if closing || n == into.len() {
                    self.watched.watch(registry);
                }
                Turn::Bytes(self.number, n)
            }
            Err(error) if error.kind() == ErrorKind::WouldBlock => Turn::Idle,
            Err(_) => {
                self.reading = Reading::Over;
                Turn::Broken(self.number)
            }
        }
    }

    // Hands bytes over to the system, once. A write that takes none found no room.
    fn send(&mut self, registry: &Registry, piece: &[u8]) -> Sent
        ensures room { SendsWithin result (length piece.now) }
        ensures memory { result ≢ Sent.NoMemory }
    {
        match self.watched.socket.write(piece) {
            Ok(0) => self.hold(),
            Ok(n) => {
                self.resume(registry);
                Sent::Took(n)
            }
            Err(error) if error.kind() == ErrorKind::WouldBlock => self.hold(),
            Err(_) => {
                self.reading = Reading::Over;
                Sent::Failed
            }
        }
    }

    // There was no room, so nothing is read.
    fn hold(&mut self) -> Sent
        ensures { result ≡ Sent.NotYet }
    {
        if self.reading == Reading::Open {
            self.reading = Reading::Held;
        }
        Sent::NotYet
    }

    // There was room: what came in the meantime is told anew.
    fn resume(&mut self, registry: &Registry) {
        if self.reading == Reading::Held {
            self.reading = Reading::Open;
            self.watched.watch(registry);
        }
    }
}

/// The open connections, in the order of their numbers.
#[derive(Drop)]
pub struct Links {
    list: Vec<Link>,
    // The number of the next one.
    next: u32,
}

impl Links {
    /// None yet. The first one has the number 1.
    pub fn new(alloc: Global) -> Links
        ensures { result.next ≡ 1 }
    {
        Links {
            list: Vec::new(alloc),
            next: 1,
        }
    }

    /// Accepts the next connection that waits, where there is a number for it. Where memory has run
    /// out it goes on waiting.
    pub fn accept(&mut self, registry: &Registry, listening: &mut Listening) -> Turn
        ensures room { (room : ℕ) → TurnsWithin result room }
        ensures number { next_number self.old.next self.new.next result }
    {
        let number = self.next;
        let Some(next) = number.checked_add(1) else {
            return Turn::Idle;
        };
        let Ok(()) = self.list.reserve(1) else {
            listening.postpone();
            return Turn::NoMemory;
        };
        let Some(stream) = listening.accept(registry) else {
            return Turn::Idle;
        };
        self.list.push_reserved(Link::new(registry, number, stream));
        self.next = next;
        Turn::Opened(number)
    }

    /// Reads what came on the connection with this number, if it is open. The peer may have closed
    /// it behind that.
    pub fn read(&mut self, registry: &Registry, number: u32, closing: bool, into: &mut [u8]) -> Turn
        requires { 0 < length into.old }
        ensures room { TurnsWithin result (length into.old) }
        ensures len { length into.new ≡ length into.old }
        ensures number { next_number self.old.next self.new.next result }
    {
        match self.place(number) {
            Some(at) => self.list[at].read(registry, closing, into),
            None => Turn::Idle,
        }
    }

    /// Hands bytes over to the connection with this number. It fails where that isn't open.
    pub fn send(&mut self, registry: &Registry, number: u32, piece: &[u8]) -> Sent
        ensures room { SendsWithin result (length piece.now) }
        ensures memory { result ≢ Sent.NoMemory }
        ensures next { self.new.next ≡ self.old.next }
    {
        match self.place(number) {
            Some(at) => self.list[at].send(registry, piece),
            None => Sent::Failed,
        }
    }

    /// Closes the connection with this number, if it is open: first for writing, so that what was
    /// sent goes ahead of the end.
    pub fn close(&mut self, number: u32)
        ensures next { self.new.next ≡ self.old.next }
    {
        if let Some(at) = self.place(number) {
            let link = self.list.remove(at);
            let _ = link.watched.socket.shutdown(Shutdown::Write);
        }
    }

    /// Registers those again whose registration failed.
    pub fn watch_missed(&mut self, registry: &Registry)
        ensures next { self.new.next ≡ self.old.next }
    {
        for link in self.list.iter_mut() {
            link.watched.watch_missed(registry);
        }
    }

    // Where the connection with this number stands, if it is open.
    fn place(&self, number: u32) -> Option<usize>
        ensures { IfSome result (λ at. at < vec_len self.now.list) }
    {
        self.list.iter().position(|link| link.number == number)
    }
}
