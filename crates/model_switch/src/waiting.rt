// The messages that wait in a switch.
ghost use Rattle.std.specs.Prelude.{◌≡◌, ◌<◌, ◌==◌, ◌&&◌, not, [], ◌∷◌, ◌++◌, length, map, slice_index_or, OnOk, OnErr};
ghost use Rattle.std.specs.List.{remove};
ghost use Rattle.of10_codec.specs.declared.message.Message.{Message};
ghost use Rattle.device_port.specs.Devices.{IsOfController};
ghost use Rattle.device_port.specs.Switches.{is_barrier};
ghost use Rattle.model_switch.specs.States.{free_count, is_mod_first, IsNext};

use crate::changes::{is_barrier, is_flow_mod};
use maple_base::NoMemory;
use of10_codec::Message;
use std::alloc::Global;
use std::collections::VecDeque;
use std::marker::Model;

/// Messages of a controller, in order, with the number of those ahead of the first barrier.
#[derive(Drop)]
pub struct Waiting {
    alloc: Global,
    list: VecDeque<Box<Message>>,
    free: usize,
}

impl Model for Waiting {
    ghost use Rattle.std.specs.Prelude.{List};
    ghost use Rattle.std.specs.Coded.{coded_list};
    ghost use Rattle.of10_codec.specs.declared.message.Message.{Message};
    ghost use Rattle.of10_codec.specs.contracts.message.Message as message;

    ghost Value = { List Message };

    ghost coded = { coded_list message.the_row.coded };

    ghost use Rattle.model_switch.specs.Kept.{waiting, IsKept};

    ghost view = { waiting };

    ghost invariant = { IsKept };
}

impl Waiting {
    pub fn new(alloc: Global) -> Waiting
        ensures { result ≡ [] }
    {
        Waiting {
            alloc,
            list: VecDeque::new(alloc),
            free: 0,
        }
    }

    /// How many messages wait.
    pub fn len(&self) -> usize
        ensures { result ≡ length self.now }
    {
        self.list.len()
    }

    /// How many stand ahead of the first barrier.
    pub fn free(&self) -> usize
        ensures { result ≡ free_count self.now }
    {
        self.free
    }

    /// The message at a place.
    pub fn get(&self, place: usize) -> &Message
        requires { place < length self.now }
        ensures value { result.now ≡ slice_index_or self.now place result.now }
        ensures sent { IsOfController result.now.body }
    {
        &self.list[place]
    }

    /// Whether the first message is a flow mod.
    pub fn is_mod_first(&self) -> bool
        ensures { result ≡ is_mod_first self.now }
    {
        if self.len() == 0 {
            return false;
        }
        is_flow_mod(&self.get(0).body)
    }

    /// Puts a message behind the others.
    pub fn push(&mut self, message: Message) -> Result<(), NoMemory>
        requires { IsOfController message.body }
        ensures ok { OnOk result (self.new ≡ self.old ++ message ∷ []) }
        ensures err { OnErr result (self.new ≡ self.old) }
    {
        let alone = stands_free(&message, self.free, self.list.len());
        push_boxed(&mut self.list, self.alloc, message)?;
        if alone {
            self.free = self.list.len();
        }
        Ok(())
    }

    /// Takes out the message at a place, which may be next.
    pub fn take_out(&mut self, place: usize)
        requires within { place < length self.old }
        requires next { IsNext place self.old }
        ensures { self.new ≡ remove self.old place }
    {
        remove_boxed(&mut self.list, place);
        if place < self.free {
            self.free -= 1;
        } else {
            self.free = count_free(&self.list);
        }
    }
}

// Whether a message will stand ahead of the first barrier, behind so many messages of which so many do.
fn stands_free(message: &Message, free: usize, len: usize) -> bool
    ensures { result ≡ (not (is_barrier message.now.body) && (free == len)) }
{
    !is_barrier(&message.body) && free == len
}

fn push_boxed(
    list: &mut VecDeque<Box<Message>>,
    alloc: Global,
    message: Message,
) -> Result<(), NoMemory>
    ensures ok { OnOk result (map (λ b. b.value) list.new.items ≡ map (λ b. b.value) list.old.items ++ message ∷ []) }
    ensures err { OnErr result (list.new.items ≡ list.old.items) }
{
    let boxed = Box::new(alloc, message)?;
    list.push_back(boxed)?;
    Ok(())
}

fn remove_boxed(list: &mut VecDeque<Box<Message>>, place: usize)
    requires { place < length list.old.items }
    ensures { map (λ b. b.value) list.new.items ≡ remove (map (λ b. b.value) list.old.items) place }
{
    let _ = list.remove(place);
}

// Counts the messages ahead of the first barrier anew.
fn count_free(list: &VecDeque<Box<Message>>) -> usize
    ensures { result ≡ free_count (map (λ b. b.value) list.now.items) }
{
    for i in 0..list.len() {
        if is_barrier(&list[i].body) {
            return i;
        }
    }
    list.len()
}
