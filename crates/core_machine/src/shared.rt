// The machine as threads share it.
use crate::machine::Core;
use history_lock::Machine;
use machine_steps::{Entry, Reply};

impl Machine for Core {
    type Entry = Entry;

    type Reply = Reply;

    ghost use Rattle.machine_steps.specs.Admitting.{Admits};
    ghost use Rattle.machine_sharing.specs.Sharing.{Allows, Turns};

    ghost steps = { Turns };

    ghost admits = { Admits };

    ghost allows = { Allows };

    fn turn(&mut self, entry: Entry) -> Reply {
        self.law();
        self.step(entry)
    }
}
