// The control text: one connection after the other.
ghost use Rattle.std.specs.Prelude.{◌≡◌, ◌<◌, ◌≤◌, length, IfSome};

use crate::listening::Listening;
use crate::waits::Watched;
use mio::net::TcpStream;
use mio::{Interest, Registry, Token};
use std::io;
use std::io::{ErrorKind, Read};
use std::net::Net;

/// Under which tokens the listening socket and the open connection are watched. No connection of a
/// switch has such a number.
pub const CONTROL_LISTENER: Token = Token(usize::MAX - 1);

pub const CONTROL: Token = Token(usize::MAX - 2);

/// Control connections, of which one is heard at a time.
#[derive(Drop)]
pub struct Control {
    listening: Listening,
    stream: Option<Watched<TcpStream>>,
    // What was given of the open connection ends within a line.
    within_line: bool,
}

impl Control {
    /// Begins to listen on a port.
    pub fn open(net: &impl Net, registry: &Registry, port: u16) -> io::Result<Control> {
        Ok(Control {
            listening: Listening::open(net, registry, port, CONTROL_LISTENER)?,
            stream: None,
            within_line: false,
        })
    }

    /// Accepts a connection, where one waits and none is open.
    pub fn accept(&mut self, registry: &Registry) {
        if self.stream.is_some() {
            return;
        }
        if let Some(stream) = self.listening.accept(registry) {
            let watched = Watched::new(registry, stream, CONTROL, Interest::READABLE);
            self.stream = Some(watched);
        }
    }

    /// Reads from the open connection: so many bytes, where some came. Where it ended within a line,
    /// an LF is given. The peer may have closed it behind the bytes.
    pub fn read(&mut self, registry: &Registry, closing: bool, into: &mut [u8]) -> Option<usize>
        requires { 0 < length into.old }
        ensures room { IfSome result (λ n. (1 ≤ n) × (n ≤ length into.old)) }
        ensures len { length into.new ≡ length into.old }
    {
        let watched = self.stream.as_mut()?;
        match watched.socket.read(into) {
            Ok(n) if n > 0 => {
                self.within_line = into[n - 1] != b'\n';
                if closing || n == into.len() {
                    watched.watch(registry);
                }
                Some(n)
            }
            Err(error) if error.kind() == ErrorKind::WouldBlock => None,
            _ => self.end(registry, into),
        }
    }

    // The open connection has ended: a line that it left open ends, and the next one may come.
    fn end(&mut self, registry: &Registry, into: &mut [u8]) -> Option<usize>
        requires { 0 < length into.old }
        ensures room { IfSome result (λ n. (1 ≤ n) × (n ≤ length into.old)) }
        ensures len { length into.new ≡ length into.old }
    {
        self.stream = None;
        self.listening.watch(registry);
        if !self.within_line {
            return None;
        }
        self.within_line = false;
        into[0] = b'\n';
        Some(1)
    }

    /// Tries again what failed: to register a socket, or to accept.
    pub fn retry(&mut self, registry: &Registry) {
        self.listening.watch_missed(registry);
        if self.listening.is_postponed() {
            self.accept(registry);
        }
        if let Some(watched) = &mut self.stream {
            watched.watch_missed(registry);
        }
    }
}
