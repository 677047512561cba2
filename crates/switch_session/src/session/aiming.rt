// Updates: planned, and aimed at.
ghost use Rattle.std.specs.Prelude.{◌≡◌, ◌+◌, ◌<◌, ◌^◌, IfOk, OnOk, OnErr, IsTrue, is_some, Some, true, false, if◌then◌else◌};
ghost use Rattle.update_plan.specs.Batches.{no_rules};
ghost use Rattle.switch_session.specs.declared.told.Phase.TheVariants.{Second, Live};
ghost use Rattle.switch_session.specs.Parts.{IsList};
ghost use Rattle.switch_session.specs.Room.{start_room};

use super::{Session, owed};
use crate::part::UpdateLists;
use crate::parts::{Aim, CLEARING_ROOM, Parts, aim_at};
use crate::told::Phase;
use maple_base::openflow::WHOLE;
use maple_base::{NoMemory, RuleList, Witness};
use of10_codec::{BodyRef, MessageRef};
use std::marker::Model;

// The bytes of a SET_CONFIG.
const CONFIG: usize = 12;

impl Session {
    ghost use Rattle.switch_session.specs.Sessions.{aimed, accepted, forgotten};
    ghost use Rattle.switch_session.specs.Calls.{IsUpdate, IsGood, CanStart, Accepts};

    // Plans an update to these rules from the target, and makes room for its parts and so much more.
    fn plan(&mut self, rules: &RuleList, more: usize) -> Result<Aim, NoMemory>
        requires list { IsList self.old.capacity rules.now }
        requires more { more < 2 ^ 20 }
        requires start { start_room self.old.phase ≡ more }
        ensures update { IfOk result (λ aim. IsUpdate self.old rules.now aim) }
        ensures prepared { IfOk result (λ aim. self.new ≡ record self.old { prepared = Some aim }) }
        ensures kept { OnErr result (self.new ≡ self.old) }
    {
        let aim = aim_at(self.alloc, self.capacity, &self.target, &self.next, rules)?;
        let room = aim.room() + more;
        self.outbox
            .reserve(owed(&self.to_come, &self.next, room, self.quiet))?;
        self.prepared_room = room;
        self.prepared = Some(Witness::of(&aim));
        Ok(aim)
    }

    /// Plans an update to these rules, and makes room for it. It leads from the rules that the
    /// running update leads to, and at rest from those that the switch was led to. The session is
    /// live, and the rules are none where it is quiet.
    ///
    /// The aim is good until it is aimed at, another is prepared, or `forget` or `end` is called, and
    /// until a message is heard that gives `Acknowledged`, `Refused` with `quiet`, or `Ended`. Over
    /// all other messages, `answer` and `take_out` it stays good.
    ///
    /// # Errors
    ///
    /// `NoMemory`. Nothing changes then.
    pub fn prepare(&mut self, rules: &RuleList) -> Result<Aim, NoMemory>
        requires live { self.old.phase ≡ Live }
        requires list { IsList self.old.capacity rules.now }
        requires quiet { self.old.quiet ≡ true → rules.now ≡ no_rules }
        ensures update { IfOk result (λ aim. IsUpdate self.old rules.now aim) }
        ensures good { IfOk result (λ aim. IsGood self.new aim) }
        ensures prepared { IfOk result (λ aim. self.new ≡ record self.old { prepared = Some aim }) }
        ensures kept { OnErr result (self.new ≡ self.old) }
    {
        self.plan(rules, 0)
    }

    /// Starts the update, or has it start behind the running one, in place of any that waits. It
    /// takes no memory.
    pub fn aim(&mut self, aim: Aim)
        requires { IsGood self.old aim }
        ensures { self.new ≡ aimed aim self.old }
    {
        self.prepared = None;
        self.prepared_room = 0;
        if aim.settled {
            return;
        }
        self.next = Some(aim);
        if self.under_way.is_none() {
            self.start_next();
        }
    }

    /// Plans the first update of a session that waits to be accepted, and makes all room for its
    /// start. Nothing that is told changes. The start is good until another is prepared, `forget` is
    /// called, or the session ends.
    ///
    /// # Errors
    ///
    /// `NoMemory`. Nothing changes then.
    pub fn prepare_start(&mut self, rules: &RuleList) -> Result<Start, NoMemory>
        requires second { self.old.phase ≡ Second }
        requires list { IsList self.old.capacity rules.now }
        ensures update { IfOk result (λ start. IsUpdate self.old rules.now start) }
        ensures can { IfOk result (λ start. CanStart self.new start) }
        ensures prepared { IfOk result (λ start. self.new ≡ record self.old { prepared = Some start }) }
        ensures kept { OnErr result (self.new ≡ self.old) }
    {
        let aim = self.plan(rules, CONFIG + CLEARING_ROOM)?;
        Ok(Start { aim })
    }

    /// Accepts the session: sends SET_CONFIG and the first clearing, and aims at the rules. It takes
    /// no memory.
    pub fn start(&mut self, start: Start)
        requires { CanStart self.old start }
        ensures { self.new ≡ accepted start self.old }
    {
        let Start { aim } = start;
        let lists = UpdateLists::new(&self.target, &self.target);
        self.outbox.put_within(&MessageRef {
            xid: 0,
            body: BodyRef::SetConfig {
                miss_send_len: WHOLE,
            },
        });
        self.phase = Phase::Live;
        self.prepared = None;
        self.prepared_room = 0;
        self.to_come = Parts::clearing(self.alloc);
        self.next = if aim.settled { None } else { Some(aim) };
        self.advance(lists);
    }

    /// Accepts the session with these rules, after its switch's number was heard.
    ///
    /// # Errors
    ///
    /// `NoMemory`. Nothing changes then.
    pub fn accept(&mut self, rules: &RuleList) -> Result<(), NoMemory>
        requires second { self.old.phase ≡ Second }
        requires list { IsList self.old.capacity rules.now }
        ensures accepted { OnOk result (Accepts self.old rules.now self.new) }
        ensures kept { OnErr result (self.new ≡ self.old) }
    {
        let start = self.prepare_start(rules)?;
        self.start(start);
        Ok(())
    }

    /// Gives up what was prepared last, and, where the session waits to be accepted, the switch's
    /// number. It takes no memory.
    pub fn forget(&mut self)
        ensures { self.new ≡ forgotten self.old }
    {
        self.prepared = None;
        self.prepared_room = 0;
        if let Phase::Second = self.phase {
            self.dpid = None;
        }
    }
}

/// The start of a session that is to be accepted: its first update.
#[derive(Drop)]
pub struct Start {
    aim: Aim,
}

impl Model for Start {
    ghost use Rattle.switch_session.specs.Parts.{Update};

    ghost Value = { Update };

    ghost view = { λ a. a.aim };
}
