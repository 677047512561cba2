// Which devices have a message to deal with.
ghost use Rattle.std.specs.Prelude.{◌≡◌, ℕ, ◌+◌, ◌<◌, true, false, length, MatchOption, OnErr, OnOk};
ghost use Rattle.sim_steps.specs.Benches.{is_plugged as is_plugged_place};
ghost use Rattle.machine_desk.specs.Hearing.{is_live};
ghost use Rattle.sim_channels.specs.Channels.{IsKept, IsSame};
ghost use Rattle.sim_channels.specs.Turns.{Appends, ChannelMoves, IsLowest, IsUnmoved, Waits, waits_in};

use crate::{Channel, Driver};
use machine_desk::Stage;
use maple_base::NoMemory;

impl<'h> Driver<'h> {
    /// Whether the session of the device with this index is open.
    pub fn is_plugged_at(&self, at: usize) -> bool
        requires kept { IsKept self.now }
        requires within { at < length self.now.channels.items }
        ensures { result ≡ is_plugged_place (at + 1) self.now.desk.now }
    {
        is_plugged(&self.channels[at])
    }

    /// Whether a message waits in the device with this index, and its session is open.
    pub fn is_waiting_at(&self, at: usize) -> bool
        requires { at < length self.now.channels.items }
        ensures waits { result ≡ true → Waits at self.now }
        ensures rests { result ≡ false → Waits at self.now → ⊥ }
    {
        is_waiting(&self.channels[at])
    }

    /// The first device in which a message waits, of those whose session is open.
    pub fn lowest_waiting(&self) -> Option<usize>
        ensures { MatchOption result ((at : ℕ) → Waits at self.now → ⊥) (λ at. IsLowest at self.now) }
    {
        for (at, channel) in self.channels.iter().enumerate() {
            if is_waiting(channel) {
                return Some(at);
            }
        }
        None
    }

    /// One message less waits in the device with this index, which appended these bytes.
    ///
    /// # Errors
    ///
    /// `NoMemory`.
    #[tactic(auto, using(crate::proofs::Others::same_but))]
    pub fn append(&mut self, at: usize, bytes: &[u8]) -> Result<(), NoMemory>
        requires { Waits at self.old }
        ensures desk { self.new.desk ≡ self.old.desk }
        ensures moves { OnOk result (ChannelMoves at (Appends bytes.now) self.old self.new) }
        ensures kept { OnErr result (ChannelMoves at IsUnmoved self.old self.new) }
        ensures same { IsSame self.old self.new }
    {
        let channel = &mut self.channels[at];
        channel.inbound.feed(bytes)?;
        channel.waiting -= 1;
        Ok(())
    }
}

fn is_plugged(channel: &Channel) -> bool
    ensures { result ≡ is_live channel.now.inbound.stage }
{
    channel.inbound.stage() == Stage::Live
}

// Whether a message waits in the device, and its session is open.
fn is_waiting(channel: &Channel) -> bool
    ensures { result ≡ waits_in channel.now }
{
    is_plugged(channel) && channel.waiting > 0
}
