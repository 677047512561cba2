// The messages that wait in a switch.
ghost use Rattle.std.specs.Prelude.{◌≡◌, ◌<◌, ◌++◌, true, nat_lt, length, map, is_some, option_map, vec_len, vec_capacity};
ghost use Rattle.device_port.specs.Switches.{is_flow_mod, message};
ghost use Rattle.model_switch.specs.States.{free_count};
ghost use Rattle.world_places.specs.Acts.{begins_with_barrier};
ghost use Rattle.world_places.specs.Answers.{messages_of};
ghost use Rattle.world_places.specs.Said.{body_said, message_sent};

use crate::said::{Said, Sent};
use model_switch::is_barrier;
use of10_codec::{Body, Message};

/// Whether a message is at this place, and no barrier is there or ahead of it.
pub fn is_free_at(pending: &[Message], at: usize) -> bool
    ensures free { result ≡ nat_lt at (free_count pending.now) }
    ensures within { result ≡ true → at < length pending.now }
{
    at < count_free(pending)
}

// Counts the messages ahead of the first barrier.
fn count_free(pending: &[Message]) -> usize
    ensures { result ≡ free_count pending.now }
{
    for i in 0..pending.len() {
        if is_barrier(&pending[i].body) {
            return i;
        }
    }
    pending.len()
}

/// Whether a barrier is pending first.
pub fn begins_with_barrier(pending: &[Message]) -> bool
    ensures { result ≡ begins_with_barrier pending.now }
{
    match pending {
        [first, ..] => is_barrier(&first.body),
        [] => false,
    }
}

/// Whether a message asks for a change of the table.
pub fn is_flow_mod(body: &Body) -> bool
    ensures { result ≡ is_flow_mod body.now }
{
    matches!(body, Body::FlowMod { .. })
}

/// Sends an answer to the message of this id, if there is one.
pub fn send(sent: &mut Vec<Sent>, xid: u32, said: Option<Said>)
    requires { is_some said ≡ true → vec_len sent.old < vec_capacity sent.old }
    ensures { map message_sent sent.new.items ≡ map message_sent sent.old.items ++ messages_of (option_map (message xid) (option_map body_said said)) }
{
    if let Some(said) = said {
        sent.push_reserved(Sent { xid, said });
    }
}
