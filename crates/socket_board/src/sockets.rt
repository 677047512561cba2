// All sockets of a board that listens.
ghost use Rattle.std.specs.Prelude.{◌≡◌, ◌≢◌, ◌<◌, ℕ, true, false, is_some, length, IfOk};
ghost use Rattle.maple_io.specs.Turns.{SendsWithin, TurnsWithin};
ghost use Rattle.socket_board.specs.Keeping.{next_of};
ghost use Rattle.socket_board.specs.Numbers.{next_number};

use crate::control::{CONTROL, CONTROL_LISTENER, Control};
use crate::links::Links;
use crate::listening::Listening;
use crate::waits::Waits;
use maple_io::{Sent, Started, Turn};
use mio::Token;
use mio::event::Event;
use std::alloc::Global;
use std::io;
use std::io::ErrorKind;
use std::net::Net;

// Under which token the listening socket for switches is watched. No connection has such a number.
const LISTENER: Token = Token(usize::MAX);

/// All sockets of a board that listens.
#[derive(Drop)]
pub struct Sockets {
    waits: Waits,
    listening: Listening,
    control: Control,
    links: Links,
}

impl Sockets {
    /// Begins to listen, for switches on one port, for control text on the other. It fails where a
    /// port is in use, or both are the same.
    pub fn open(net: &impl Net, alloc: Global, listen: u16, control: u16) -> io::Result<Sockets>
        ensures { IfOk result (λ sockets. sockets.links.next ≡ 1) }
    {
        if listen == control {
            return Err(io::Error::from(ErrorKind::AddrInUse));
        }
        let waits = Waits::new(net, alloc)?;
        let listening = Listening::open(net, waits.registry(), listen, LISTENER)?;
        let control = Control::open(net, waits.registry(), control)?;
        Ok(Sockets {
            waits,
            listening,
            control,
            links: Links::new(alloc),
        })
    }

    // What comes next. A wait that found nothing is where to try again what failed.
    fn turn(&mut self, into: &mut [u8]) -> Turn
        requires { 0 < length into.old }
        ensures room { TurnsWithin result (length into.old) }
        ensures len { length into.new ≡ length into.old }
        ensures number { next_number self.old.links.next self.new.links.next result }
    {
        match self.waits.next_event() {
            Ok(Some(event)) => self.attend(event, into),
            Ok(None) => self.retry(),
            Err(_) => Turn::Failed,
        }
    }

    // What an event brings. Nothing does where it was told for nothing.
    fn attend(&mut self, event: Event, into: &mut [u8]) -> Turn
        requires { 0 < length into.old }
        ensures room { TurnsWithin result (length into.old) }
        ensures len { length into.new ≡ length into.old }
        ensures number { next_number self.old.links.next self.new.links.next result }
    {
        let token = event.token();
        if token == LISTENER {
            return self
                .links
                .accept(self.waits.registry(), &mut self.listening);
        }
        if token == CONTROL_LISTENER {
            self.control.accept(self.waits.registry());
            return Turn::Idle;
        }
        let closing = event.is_read_closed();
        if token == CONTROL {
            return self.read_control(closing, into);
        }
        match u32::try_from(token.0) {
            Ok(number) => self
                .links
                .read(self.waits.registry(), number, closing, into),
            Err(_) => Turn::Idle,
        }
    }

    // Control text, where some came.
    fn read_control(&mut self, closing: bool, into: &mut [u8]) -> Turn
        requires { 0 < length into.old }
        ensures room { TurnsWithin result (length into.old) }
        ensures len { length into.new ≡ length into.old }
        ensures number { next_number self.old.links.next self.new.links.next result }
    {
        match self.control.read(self.waits.registry(), closing, into) {
            Some(n) => Turn::Control(n),
            None => Turn::Idle,
        }
    }

    // Tries again what failed: to register a socket, or to accept a connection.
    fn retry(&mut self) -> Turn
        ensures room { (room : ℕ) → TurnsWithin result room }
        ensures number { next_number self.old.links.next self.new.links.next result }
    {
        let registry = self.waits.registry();
        self.links.watch_missed(registry);
        self.control.retry(registry);
        self.listening.watch_missed(registry);
        if !self.listening.is_postponed() {
            return Turn::Idle;
        }
        self.links.accept(registry, &mut self.listening)
    }

    // Hands bytes over to a connection.
    fn send(&mut self, connection: u32, piece: &[u8]) -> Sent
        ensures room { SendsWithin result (length piece.now) }
        ensures memory { result ≢ Sent.NoMemory }
        ensures next { self.new.links.next ≡ self.old.links.next }
    {
        let sent = self.links.send(self.waits.registry(), connection, piece);
        if let Sent::Took(_) = sent {
            self.waits.hurry();
        }
        sent
    }
}

// ---- of a board that may not listen yet

/// Begins to listen. A board that listens already fails, and goes on.
pub fn start_on(
    sockets: &mut Option<Sockets>,
    net: &impl Net,
    alloc: Global,
    listen: u16,
    control: u16,
) -> Started
    ensures next { next_of sockets.new ≡ next_of sockets.old }
    ensures ready { result ≡ Started.Ready → is_some sockets.new ≡ true }
    ensures failed { result ≡ Started.Failed → sockets.new ≡ sockets.old }
    ensures again { is_some sockets.old ≡ true → result ≡ Started.Failed }
{
    if sockets.is_some() {
        return Started::Failed;
    }
    match Sockets::open(net, alloc, listen, control) {
        Ok(opened) => {
            *sockets = Some(opened);
            Started::Ready
        }
        Err(_) => Started::Failed,
    }
}

/// What comes next. A board that doesn't listen fails.
pub fn turn_of(sockets: &mut Option<Sockets>, into: &mut [u8]) -> Turn
    requires { 0 < length into.old }
    ensures room { TurnsWithin result (length into.old) }
    ensures len { length into.new ≡ length into.old }
    ensures number { next_number (next_of sockets.old) (next_of sockets.new) result }
    ensures unstarted { is_some sockets.old ≡ false → result ≡ Turn.Failed }
    ensures started { is_some sockets.new ≡ is_some sockets.old }
{
    match sockets {
        Some(sockets) => sockets.turn(into),
        None => Turn::Failed,
    }
}

/// Hands bytes over to a connection. It fails where that isn't open.
pub fn send_on(sockets: &mut Option<Sockets>, connection: u32, piece: &[u8]) -> Sent
    ensures room { SendsWithin result (length piece.now) }
    ensures memory { result ≢ Sent.NoMemory }
    ensures unstarted { is_some sockets.old ≡ false → result ≡ Sent.Failed }
    ensures next { next_of sockets.new ≡ next_of sockets.old }
    ensures started { is_some sockets.new ≡ is_some sockets.old }
{
    match sockets {
        Some(sockets) => sockets.send(connection, piece),
        None => Sent::Failed,
    }
}

/// Closes a connection, if it is open.
pub fn close_on(sockets: &mut Option<Sockets>, connection: u32)
    ensures next { next_of sockets.new ≡ next_of sockets.old }
    ensures started { is_some sockets.new ≡ is_some sockets.old }
{
    if let Some(sockets) = sockets {
        sockets.links.close(connection);
    }
}
