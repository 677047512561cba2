// How sessions stand.
ghost use Rattle.std.specs.Prelude.{◌<◌, length};
ghost use Rattle.sim_channels.specs.Staging.{HasStage};

use crate::Driver;
use machine_desk::Stage;

impl<'h> Driver<'h> {
    /// The stage of the channel with this index.
    pub fn stage(&self, at: usize) -> Stage
        requires { at < length self.now.channels.items }
        ensures { HasStage at result self.now }
    {
        self.channels[at].inbound.stage()
    }
}
