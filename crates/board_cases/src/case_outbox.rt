// Who has bytes for one connection.
ghost use Rattle.std.specs.Prelude.{◌≡◌, ◌++◌, ◌∷◌, []};

use board_lines::Outbox;
use maple_base::{GhostList, NoMemory, Witness};
use maple_io::Piece;
use std::alloc::{AllocError, Global};
use std::mem;

/// Bytes for one connection, and how often it was told that a connection broke.
#[derive(Drop)]
pub struct CaseOutbox {
    number: u32,
    waiting: Vec<u8>,
    breaks: u64,
    /// What it gave, the connections of which bytes were asked, and those of which it was told.
    given: GhostList<u8>,
    asked: GhostList<u32>,
    told: GhostList<u32>,
}

impl CaseOutbox {
    pub fn new(number: u32, alloc: Global) -> CaseOutbox
        ensures number { result.number ≡ number }
        ensures given { result.given.value ≡ [] }
    {
        CaseOutbox {
            number,
            waiting: Vec::new(alloc),
            breaks: 0,
            given: GhostList::none(),
            asked: GhostList::none(),
            told: GhostList::none(),
        }
    }

    /// Further bytes wait.
    pub fn add(&mut self, bytes: &[u8]) -> Result<(), AllocError>
        ensures number { self.new.number ≡ self.old.number }
        ensures given { self.new.given.value ≡ self.old.given.value }
    {
        self.waiting.extend_from_slice(bytes)
    }

    /// How often it was told of a break.
    pub fn breaks(&self) -> u64 {
        self.breaks
    }
}

impl Outbox for CaseOutbox {
    ghost use Rattle.board_cases.specs.Outboxes.{outbox_view};

    ghost tells = { outbox_view };

    fn take_out(&mut self, connection: u32) -> Result<Piece, NoMemory> {
        let alloc = *self.waiting.allocator();
        self.asked = with_number(&self.asked, connection);
        if connection != self.number {
            return Ok(Piece::new(Vec::new(alloc)));
        }
        let bytes = mem::replace(&mut self.waiting, Vec::new(alloc));
        self.given = further(&self.given, &bytes);
        Ok(Piece::new(bytes))
    }

    fn gone(&mut self, connection: u32) {
        self.breaks = self.breaks.saturating_add(1);
        self.told = with_number(&self.told, connection);
    }
}

fn further(given: &GhostList<u8>, bytes: &[u8]) -> GhostList<u8>
    ensures { result.value ≡ given.now.value ++ bytes.now }
{
    Witness::picked(&(given, bytes))
}

fn with_number(numbers: &GhostList<u32>, connection: u32) -> GhostList<u32>
    ensures { result.value ≡ numbers.now.value ++ connection ∷ [] }
{
    Witness::picked(&(numbers, connection))
}
