// What holds of the places of a driver.
ghost use Rattle.sim_channels.specs.Resting.{RestingLaws};

use machine_desk::driving_laws;

/// What keeps what is known of places at which nothing is left to do.
pub fn resting_laws()
    ensures { RestingLaws }
{
    driving_laws();
}
