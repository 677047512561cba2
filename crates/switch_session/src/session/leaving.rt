// Which part of an update leaves.
ghost use Rattle.std.specs.Prelude.{◌≡◌, ◌<◌, ◌+◌, false};
ghost use Rattle.switch_session.specs.declared.told.Phase.TheVariants.{Live};
ghost use Rattle.switch_session.specs.Parts.{last_start};

use super::Session;
use crate::part::{UnderWay, UpdateLists};
use crate::parts::{Aim, Parts, no_rules};
use crate::told::Phase;

impl Session {
    ghost use Rattle.switch_session.specs.Sessions.{leaves, next_starts, follows, breaks_off, ended};

    // The first of the parts to come leaves.
    pub(super) fn advance(&mut self, lists: UpdateLists)
        requires live { self.old.phase ≡ Live }
        requires free { self.old.used < last_start }
        ensures { self.new ≡ leaves lists self.old.to_come self.old }
    {
        match self.to_come.take(self.alloc) {
            None => self.under_way = None,
            Some(part) => {
                let barrier = self.outbox.put_part(self.used, &part);
                self.used = barrier;
                self.under_way = Some(UnderWay {
                    clears: part.clears(),
                    barrier,
                    lists,
                });
            }
        }
    }

    // The next update starts, if there is one.
    pub(super) fn start_next(&mut self)
        requires live { self.old.phase ≡ Live }
        requires free { self.old.used < last_start }
        ensures { self.new ≡ next_starts self.old.next self.old }
    {
        let Some(aim) = self.next.take() else {
            self.under_way = None;
            return;
        };
        let Aim { rules, parts, .. } = aim;
        let lists = UpdateLists::new(&self.target, &rules);
        self.target = rules;
        self.to_come = parts;
        self.advance(lists);
    }

    // What follows the reply to the barrier of a part.
    pub(super) fn follow(&mut self, lists: UpdateLists)
        requires live { self.old.phase ≡ Live }
        requires free { self.old.used < last_start }
        ensures { self.new ≡ follows lists self.old }
    {
        self.prepared = None;
        self.prepared_room = 0;
        if self.to_come.is_empty() {
            self.start_next();
        } else {
            self.advance(lists);
        }
    }

    // The first error of a batch: the table is cleared, and no rules are sent any more.
    pub(super) fn break_off(&mut self)
        requires live { self.old.phase ≡ Live }
        requires quiet { self.old.quiet ≡ false }
        ensures { self.new ≡ breaks_off self.old }
    {
        let lists = UpdateLists::new(&self.target, &self.target);
        self.quiet = true;
        self.target = no_rules(self.alloc);
        self.next = None;
        self.prepared = None;
        self.prepared_room = 0;
        self.to_come = Parts::clearing(self.alloc);
        if self.under_way.is_none() {
            self.advance(lists);
        }
    }

    /// Ends the session, for a cause that the caller knows. It keeps its outbox, the switch's number
    /// and whether it is quiet, and takes no memory.
    pub fn end(&mut self)
        ensures { self.new ≡ ended self.old }
    {
        self.phase = Phase::Ended;
        self.ready = false;
        self.under_way = None;
        self.to_come = Parts::none(self.alloc);
        self.target = no_rules(self.alloc);
        self.next = None;
        self.prepared = None;
        self.prepared_room = 0;
    }
}
