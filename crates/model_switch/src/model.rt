// A switch in memory.
ghost use Rattle.std.specs.Prelude.{◌≡◌, ◌≤◌, true, length};
ghost use Rattle.of10_codec.specs.declared.message.Message.{Message};

use crate::answering::{carry_out, refuse};
use crate::looking::look_up;
use crate::waiting::Waiting;
use device_port::Took;
use flow_table::Table;
use maple_base::{Seen, Turned};
use of10_codec::{DecodeError, decode};
use std::alloc::Global;
use std::marker::Model;

/// The state that all model switches have.
#[derive(Drop)]
pub struct ModelSwitch {
    alloc: Global,
    dpid: u64,
    ports: u16,
    table: Table,
    waiting: Waiting,
}

impl Model for ModelSwitch {
    ghost use Rattle.std.specs.Prelude.{◌≤◌};
    ghost use Rattle.model_switch.specs.States.{State};
    ghost use Rattle.std.specs.Coded.{codes};
    ghost use Rattle.of10_codec.specs.contracts.message.Message as message;

    ghost Value = { State };

    ghost coded = { Prim.hlevel (codes, message.the_row.coded) };

    ghost view = { λ a. record { dpid = a.dpid; ports = a.ports; table = a.table; pending = a.waiting } };

    ghost invariant = { λ a. a.ports ≤ 1364 };
}

impl ModelSwitch {
    ghost use Rattle.device_port.specs.Devices.{Appends, IsOffer};
    ghost use Rattle.model_switch.specs.Answers.{Sees};
    ghost use Rattle.model_switch.specs.States.{opened, free_count, is_mod_first, IsNext, IsOffered, TurnsAt, RefusesFirst};

    pub fn new(alloc: Global, dpid: u64, ports: u16, capacity: u32) -> ModelSwitch
        requires { ports ≤ 1364 }
        ensures { result ≡ opened dpid ports capacity }
    {
        ModelSwitch {
            alloc,
            dpid,
            ports,
            table: Table::new(alloc, capacity),
            waiting: Waiting::new(alloc),
        }
    }

    /// How many messages stand ahead of the first barrier.
    pub fn free(&self) -> usize
        ensures { result ≡ free_count self.now.pending }
    {
        self.waiting.free()
    }

    /// Puts a message behind the others.
    pub fn offer(&mut self, bytes: &[u8]) -> Took
        requires { (x : Message) × IsOffer x bytes.now }
        ensures { IsOffered bytes.now result self.old self.new }
    {
        let message = match decode(self.alloc, bytes) {
            Ok(message) => message,
            Err(DecodeError::Bad(_)) => unreachable!(),
            Err(DecodeError::NoMemory) => return Took::NoMemory,
        };
        match self.waiting.push(message) {
            Ok(()) => Took::Taken,
            Err(_) => Took::NoMemory,
        }
    }

    /// Deals with the message at a place, which may be next.
    pub fn turn_at(&mut self, place: usize, out: &mut Vec<u8>) -> Turned
        requires { IsNext place self.old.pending }
        ensures { Appends out.old.items out.new.items (λ bytes. TurnsAt place self.old result bytes self.new) }
    {
        if place >= self.waiting.len() {
            return Turned::Nothing;
        }
        let message = self.waiting.get(place);
        let answer = carry_out(
            self.alloc,
            self.dpid,
            self.ports,
            message,
            &mut self.table,
            out,
        );
        if let Turned::NoMemory = answer {
            return answer;
        }
        self.waiting.take_out(place);
        answer
    }

    /// Whether the first message is a flow mod.
    pub fn is_mod_first(&self) -> bool
        ensures { result ≡ is_mod_first self.now.pending }
    {
        self.waiting.is_mod_first()
    }

    /// Refuses the first message, which is a flow mod: it goes, and the table stays.
    pub fn refuse_first(&mut self, out: &mut Vec<u8>) -> Turned
        requires { is_mod_first self.old.pending ≡ true }
        ensures { Appends out.old.items out.new.items (λ bytes. RefusesFirst self.old result bytes self.new) }
    {
        let xid = self.waiting.get(0).xid;
        let answer = refuse(xid, out);
        if let Turned::NoMemory = answer {
            return answer;
        }
        self.waiting.take_out(0);
        answer
    }

    /// The allocator that it was made with.
    pub fn alloc(&self) -> Global {
        self.alloc
    }

    /// Looks a frame up.
    pub fn packet(&self, port: u16, frame: &[u8], out: &mut Vec<u8>) -> Seen
        requires { length frame.now ≤ 65517 }
        ensures { Appends out.old.items out.new.items (λ bytes. Sees port frame.now self.now.table result bytes) }
    {
        look_up(&self.table, port, frame, out)
    }
}
