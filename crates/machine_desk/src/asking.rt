// What an operator orders.
ghost use Rattle.std.specs.Prelude.{◌≡◌, IfErr, IfOk, OnOk};
ghost use Rattle.machine_moves.specs.Told.{is_new_state};
ghost use Rattle.machine_steps.specs.Admitting.{Admits, IsOperators};
ghost use Rattle.machine_steps.specs.declared.entry.Entry.TheVariants as entries;
ghost use Rattle.machine_desk.specs.Arriving.{HasRoomFor};
ghost use Rattle.machine_desk.specs.Orders.{Asked, Asks, Changes, Renews, Stops, StopsRenewing};

use crate::Desk;
use core_machine::{Entry, Note, Reply};
use env_cells::Update;
use policy_text::{ReadError, read_policy};
use std::alloc::Global;
use std::sync::Wait;

/// Why an order was not carried out.
#[derive(Clone, Copy, Debug, PartialEq, Eq)]
pub enum DeskStop {
    /// Memory ran out.
    NoMemory,
    /// The hall is worn.
    Worn,
}

impl<'h> Desk<'h> {
    /// The machine does what an entry asks, where memory suffices.
    ///
    /// # Errors
    ///
    /// `NoMemory`, as the machine replies; `Worn`.
    pub fn ask<R: Wait>(&mut self, rt: &R, entry: Entry) -> Result<Reply, DeskStop>
        requires admits { Admits self.old.now entry }
        requires room { HasRoomFor entry self.old.now }
        ensures ok { IfOk result (λ reply. Asks entry reply self.old self.new) }
        ensures stops { IfErr result (λ stop. Stops stop entry self.old self.new) }
        ensures footing { self.new.footing ≡ self.old.footing }
    {
        match self.enter(rt, entry) {
            Ok(Reply::NoMemory) => Err(DeskStop::NoMemory),
            Ok(reply) => Ok(reply),
            Err(_) => Err(DeskStop::Worn),
        }
    }

    /// Changes what is known of the network. Tells whether it changed: the update may be refused, which the report tells.
    ///
    /// # Errors
    ///
    /// As `ask`.
    pub fn change<R: Wait>(&mut self, rt: &R, update: Update) -> Result<bool, DeskStop>
        requires operators { IsOperators update }
        ensures ok { IfOk result (λ made. Changes update made self.old self.new) }
        ensures stops { IfErr result (λ stop. Stops stop (entries.Change update) self.old self.new) }
        ensures footing { self.new.footing ≡ self.old.footing }
    {
        let reply = self.ask(rt, Entry::Change(update))?;
        Ok(is_new_state(&reply))
    }

    /// Puts the policy of a text in force. Tells whether it is one: where it isn't, the report tells where and why.
    ///
    /// # Errors
    ///
    /// As `ask`, and `NoMemory` for reading the text.
    #[tactic(auto, using(crate::proofs::Renewing::stops_accepted, crate::proofs::Renewing::stops_refused))]
    pub fn renew<R: Wait>(&mut self, rt: &R, alloc: Global, text: &[u8]) -> Result<bool, DeskStop>
        ensures ok { IfOk result (λ accepted. Renews accepted text.now self.old self.new) }
        ensures stops { IfErr result (λ stop. StopsRenewing stop text.now self.old self.new) }
        ensures footing { self.new.footing ≡ self.old.footing }
    {
        match read_policy(alloc, text) {
            Ok(policy) => {
                self.ask(rt, Entry::NewPolicy(policy))?;
                Ok(true)
            }
            Err(ReadError::Refused { line, column, kind }) => {
                self.ask(rt, Entry::Note(Note::PolicyRefused { line, column, kind }))?;
                Ok(false)
            }
            Err(ReadError::NoMemory) => Err(DeskStop::NoMemory),
        }
    }

    /// Lists the rules of a switch in the report.
    ///
    /// # Errors
    ///
    /// As `ask`.
    pub fn list_rules<R: Wait>(&mut self, rt: &R, switch: u64) -> Result<(), DeskStop>
        ensures ok { OnOk result (Asked (entries.ReadRules switch) self.old self.new) }
        ensures stops { IfErr result (λ stop. Stops stop (entries.ReadRules switch) self.old self.new) }
        ensures footing { self.new.footing ≡ self.old.footing }
    {
        self.ask(rt, Entry::ReadRules(switch))?;
        Ok(())
    }
}

fn is_new_state(reply: &Reply) -> bool
    ensures { result ≡ is_new_state reply.now }
{
    matches!(reply, Reply::NewState { .. })
}
