// Waiting for events: which sockets are watched, and for how long a call waits.
use mio::event::{Event, Source};
use mio::{Events, Interest, Poll, Registry, Token};
use std::alloc::Global;
use std::io;
use std::io::ErrorKind;
use std::net::Net;
use std::time::Duration;

// How many events one wait gives at most.
const MOST_EVENTS: usize = 128;

// So many calls in a row that find no event don't wait, and so many behind them wait shortly. All
// further ones wait long.
const UNHURRIED: u32 = 200;

const SHORT: u32 = 50;

// In milliseconds.
const SHORT_WAIT: u64 = 1;

const LONG_WAIT: u64 = 20;

/// The sockets that are watched, and the events that the last wait found.
#[derive(Drop)]
pub struct Waits {
    poll: Poll,
    events: Events,
    // How many of the events were given.
    given: usize,
    // How many calls in a row found no event.
    quiet: u32,
}

impl Waits {
    /// Nothing is watched.
    pub fn new(net: &impl Net, alloc: Global) -> io::Result<Waits> {
        let poll = Poll::new(net)?;
        let events = Events::with_capacity(alloc, MOST_EVENTS)?;
        Ok(Waits {
            poll,
            events,
            given: 0,
            quiet: 0,
        })
    }

    /// Where sockets are registered.
    pub fn registry(&self) -> &Registry {
        self.poll.registry()
    }

    /// The next event, where one comes in time.
    pub fn next_event(&mut self) -> io::Result<Option<Event>> {
        let mut found = self.take_event();
        if found.is_none() {
            let pause = pause_after(self.quiet);
            self.poll.poll(&mut self.events, Some(pause))?;
            self.given = 0;
            found = self.take_event();
        }
        match found {
            Some(_) => self.quiet = 0,
            None => self.quiet = self.quiet.saturating_add(1),
        }
        Ok(found)
    }

    /// The next calls don't wait.
    pub fn hurry(&mut self) {
        self.quiet = 0;
    }

    // The next event that the last wait found.
    fn take_event(&mut self) -> Option<Event> {
        let event = *self.events.iter().as_slice().get(self.given)?;
        self.given = self.given.saturating_add(1);
        Some(event)
    }
}

// How long to wait after so many calls in a row that found no event.
fn pause_after(quiet: u32) -> Duration {
    if quiet < UNHURRIED {
        Duration::ZERO
    } else if quiet < UNHURRIED + SHORT {
        Duration::from_millis(SHORT_WAIT)
    } else {
        Duration::from_millis(LONG_WAIT)
    }
}

/// A socket that is watched.
#[derive(Drop)]
pub struct Watched<S> {
    pub socket: S,
    token: Token,
    interest: Interest,
    // It couldn't be registered.
    missed: bool,
}

impl<S: Source> Watched<S> {
    /// The socket, registered under the token.
    pub fn new(registry: &Registry, socket: S, token: Token, interest: Interest) -> Watched<S> {
        let mut watched = Watched {
            socket,
            token,
            interest,
            missed: false,
        };
        watched.watch(registry);
        watched
    }

    /// Has what the socket is ready for told anew. Where that fails, `watch_missed` tries it again.
    pub fn watch(&mut self, registry: &Registry) {
        let again = registry.reregister(&mut self.socket, self.token, self.interest);
        let told = match again {
            Err(error) if error.kind() == ErrorKind::NotFound => {
                registry.register(&mut self.socket, self.token, self.interest)
            }
            told => told,
        };
        self.missed = told.is_err();
    }

    /// Registers the socket again where that failed.
    pub fn watch_missed(&mut self, registry: &Registry) {
        if self.missed {
            self.watch(registry);
        }
    }
}
