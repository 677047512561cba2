// A listening socket, and what it accepts.
use crate::waits::Watched;
use mio::net::{TcpListener, TcpStream};
use mio::{Interest, Registry, Token};
use std::io;
use std::io::ErrorKind;
use std::net::{Ipv4Addr, Net, SocketAddr};

/// A listening socket of 127.0.0.1.
#[derive(Drop)]
pub struct Listening {
    watched: Watched<TcpListener>,
    // A connection may wait that wasn't accepted, and no event tells of it.
    postponed: bool,
}

impl Listening {
    /// Begins to listen on a port, under this token.
    pub fn open(
        net: &impl Net,
        registry: &Registry,
        port: u16,
        token: Token,
    ) -> io::Result<Listening> {
        let address = SocketAddr::from((Ipv4Addr::LOCALHOST, port));
        let listener = TcpListener::bind(net, address)?;
        Ok(Listening {
            watched: Watched::new(registry, listener, token, Interest::READABLE),
            postponed: false,
        })
    }

    /// The next connection, where one waits. An `accept` that failed, for want of descriptors or
    /// since the peer left, is postponed: another connection may wait.
    pub fn accept(&mut self, registry: &Registry) -> Option<TcpStream> {
        match self.watched.socket.accept() {
            Ok((stream, _)) => {
                self.postponed = false;
                self.watched.watch(registry);
                Some(stream)
            }
            Err(error) => {
                self.postponed = error.kind() != ErrorKind::WouldBlock;
                None
            }
        }
    }

    /// What waits is to be accepted later, though no event tells of it.
    pub fn postpone(&mut self) {
        self.postponed = true;
    }

    /// Whether what waits is to be accepted, though no event tells of it.
    pub fn is_postponed(&self) -> bool {
        self.postponed
    }

    /// Has the connections that wait told anew.
    pub fn watch(&mut self, registry: &Registry) {
        self.watched.watch(registry);
    }

    /// Registers the socket again where that failed.
    pub fn watch_missed(&mut self, registry: &Registry) {
        self.watched.watch_missed(registry);
    }
}
