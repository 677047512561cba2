// The server of switches.
ghost use Rattle.std.specs.Prelude.{◌≡◌, [], IfErr, IfOk, MatchOption, true};
ghost use Rattle.machine_desk.specs.Desks.{DeskLaw, HadMemory, calls_of};
ghost use Rattle.serve_channels.specs.Servers.{IsAt, IsGap, IsMissing};

use crate::Connection;
use machine_desk::{Crew, Desk};
use std::alloc::Global;

/// Who drives the machine at its desk, and serves the connections of switches, which a board gives by number.
#[derive(Drop)]
pub struct Server<'h> {
    pub(crate) alloc: Global,
    pub(crate) desk: Desk<'h>,
    /// Who works beside it, if anybody does.
    pub(crate) crew: Option<Crew<'h>>,
    /// Those that were opened and weren't closed, in the order of their numbers.
    pub(crate) connections: Vec<Connection>,
}

impl<'h> Server<'h> {
    /// No connection yet.
    pub fn new(alloc: Global, desk: Desk<'h>, crew: Option<Crew<'h>>) -> Server<'h>
        ensures desk { result.desk ≡ desk.entry }
        ensures crew { result.crew ≡ crew.entry }
        ensures none { result.connections.items ≡ [] }
    {
        Server {
            alloc,
            desk,
            crew,
            connections: Vec::new(alloc),
        }
    }

    /// Whether the hall was found worn.
    pub fn is_worn(&self) -> bool
        ensures { result ≡ self.now.desk.worn }
    {
        self.desk.is_worn()
    }

    /// Whether memory sufficed for all calls of the desk's own.
    pub fn had_memory(&self) -> bool
        ensures { result ≡ true → HadMemory (calls_of self.now.desk.past) self.now.desk.own }
    {
        self.desk.had_memory()
    }

    /// What holds of its desk.
    pub fn law(&self)
        ensures { DeskLaw self.now.desk }
    {
        self.desk.law();
    }

    /// The turns so far are marked.
    pub fn mark(&mut self)
        ensures { self.new ≡ record self.old { desk = record self.old.desk { footing = record self.old.desk.footing { marked = self.old.desk.past } } } }
    {
        self.desk.mark();
    }

    /// The desk again, and who works beside it, as all is done.
    pub fn into_parts(self) -> (Desk<'h>, Option<Crew<'h>>)
        ensures desk { result.0 ≡ self.entry.desk }
        ensures crew { result.1 ≡ self.entry.crew }
    {
        let Server { desk, crew, .. } = self;
        (desk, crew)
    }

    // The index of the connection of a number.
    pub(crate) fn find(&self, number: u32) -> Option<usize>
        ensures { MatchOption result (IsMissing number self.now.connections.items) (λ at. IsAt at number self.now.connections.items) }
    {
        self.place(number).ok()
    }

    // The index of the connection of a number, or the one at which it would go.
    pub(crate) fn place(&self, number: u32) -> Result<usize, usize>
        ensures found { IfOk result (λ at. IsAt at number self.now.connections.items) }
        ensures absent { IfErr result (λ at. IsGap at number self.now.connections.items) }
    {
        self.connections
            .binary_search_by_key(&number, |connection| connection.inbound.connection())
    }
}
