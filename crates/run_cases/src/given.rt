// What a run is given besides its words and its input.
ghost use Rattle.std.specs.Prelude.{◌≡◌, [], IfOk};
ghost use Rattle.model_switch.specs.Meanings.{of_liar};

use crate::devices::{Kind, kind_of, liar};
use case_text::{CaseStop, Words};
use maple_base::NoMemory;
use maple_top::DEVICES;
use model_switch::Liar;
use std::alloc::{AllocError, Global};

/// Devices, and the numbers of the reads and of the writes that fail.
#[derive(Drop)]
pub struct Given {
    alloc: Global,
    // Whether the devices are these kinds, and not the program's own.
    is_told: bool,
    kinds: Vec<Kind>,
    lies: Vec<Vec<u8>>,
    pub reads: Vec<u64>,
    pub writes: Vec<u64>,
}

impl Given {
    /// The program's own devices, and no faults.
    pub fn new(alloc: Global) -> Given {
        Given {
            alloc,
            is_told: false,
            kinds: Vec::new(alloc),
            lies: Vec::new(alloc),
            reads: Vec::new(alloc),
            writes: Vec::new(alloc),
        }
    }

    /// One device more, behind those told so far.
    pub fn device(&mut self, call: Words<'_>) -> Result<(), CaseStop> {
        self.is_told = true;
        let kind = kind_of(call, self.alloc, &mut self.lies)?;
        self.kinds.push(kind)?;
        Ok(())
    }

    /// So many devices as the program's own.
    pub fn devices(&mut self, mut call: Words<'_>) -> Result<(), CaseStop> {
        self.is_told = true;
        push_own(&mut self.kinds, call.number()?)?;
        Ok(())
    }

    /// A read or a write that fails.
    pub fn fault(&mut self, mut call: Words<'_>) -> Result<(), CaseStop> {
        match call.word() {
            "read" => self.reads.push(call.number()?)?,
            "write" => self.writes.push(call.number()?)?,
            _ => return Err(CaseStop::Unread),
        }
        Ok(())
    }

    /// A liar, whose turn of the first number tells the lie of the second.
    pub fn liar(&self, at: u64, lie: usize) -> Result<Liar, AllocError>
        ensures { IfOk result (λ device. (of_liar device).pending ≡ []) }
    {
        match self.lies.get(lie) {
            Some(bytes) => liar(self.alloc, at, bytes),
            None => liar(self.alloc, at, &[]),
        }
    }

    /// The devices, by their places.
    pub fn kinds(&self, alloc: Global) -> Result<Vec<Kind>, NoMemory> {
        let mut kinds = Vec::from_slice(alloc, &self.kinds)?;
        if !self.is_told {
            push_own(&mut kinds, DEVICES)?;
        }
        Ok(kinds)
    }
}

fn push_own(kinds: &mut Vec<Kind>, count: u64) -> Result<(), AllocError> {
    for place in 1..=count {
        kinds.push(Kind::Shuffled(place))?;
    }
    Ok(())
}
