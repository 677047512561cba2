// The network changes, another policy is put in force, rules are listed.
ghost use Rattle.std.specs.Prelude.{◌≡◌, false, map, Ok, OnErr, OnOk};
ghost use Rattle.machine_steps.specs.declared.entry.Entry.TheVariants as entries;
ghost use Rattle.script_text.specs.Orders.{Order};
ghost use Rattle.script_text.specs.Steps.{IsOfLine};
ghost use Rattle.sim_steps.specs.Stretches.{BreaksOff};
ghost use Rattle.sim_channels.specs.Channels.{BreaksOffOver, Fits, IsKept, IsSame, bench};
ghost use Rattle.sim_channels.specs.Waiting.{IsAtRest, IsHeardThrough};
ghost use Rattle.sim_turns.specs.Turning.{FitsStill};
ghost use Rattle.sim_driver.specs.Commands.{AsksFor, AsksToRenew, ObeyedBy, ObeyedOver};

use device_port::Device;
use env_cells::Update;
use sim_channels::{Driver, Stopped, driving_laws, resting_laws};
use std::sync::Wait;

/// What is known of the network changes, and what the machine has for devices then is given to them.
///
/// # Errors
///
/// `Stopped`.
pub(crate) fn change<R: Wait, D: Device>(
    rt: &R,
    driver: &mut Driver<'_>,
    devices: &mut [D],
    update: Update,
) -> Result<(), Stopped>
    requires fits { Fits driver.old (map D.meaning devices.old) }
    requires rest { IsAtRest driver.old }
    requires line { IsOfLine update }
    ensures fits { OnOk result (Fits driver.new (map D.meaning devices.new)) }
    ensures rest { OnOk result (IsAtRest driver.new) }
    ensures obeyed { OnOk result (ObeyedBy (Order.Change update) driver.old (map D.meaning devices.old) driver.new (map D.meaning devices.new)) }
    ensures broken { OnErr result (BreaksOff (bench driver.old (map D.meaning devices.old)) driver.new.desk.past) }
    ensures same { IsSame driver.old driver.new }
{
    resting_laws();
    if update_network(rt, driver, update)? {
        driver.deliver_all(rt, devices)
    } else {
        Ok(())
    }
}

// Tells whether the network changed: the update may be refused.
fn update_network<R: Wait>(rt: &R, driver: &mut Driver<'_>, update: Update) -> Result<bool, Stopped>
    requires kept { IsKept driver.old }
    requires rest { IsAtRest driver.old }
    requires line { IsOfLine update }
    ensures fits { OnOk result (FitsStill driver.old driver.new) }
    ensures through { OnOk result (IsHeardThrough driver.new) }
    ensures rest { result ≡ Ok false → IsAtRest driver.new }
    ensures asked { OnOk result (AsksFor (entries.Change update) driver.old driver.new) }
    ensures broken { OnErr result (BreaksOffOver driver.old driver.new) }
    ensures same { IsSame driver.old driver.new }
{
    driving_laws();
    resting_laws();
    Ok(driver.change(rt, update)?)
}

/// The policy of a text is put in force, and what the machine has for devices then is given to them.
/// Where the text is of none, that alone is told.
///
/// # Errors
///
/// `Stopped`.
pub(crate) fn renew<R: Wait, D: Device>(
    rt: &R,
    driver: &mut Driver<'_>,
    devices: &mut [D],
    text: &[u8],
) -> Result<(), Stopped>
    requires fits { Fits driver.old (map D.meaning devices.old) }
    requires rest { IsAtRest driver.old }
    ensures fits { OnOk result (Fits driver.new (map D.meaning devices.new)) }
    ensures rest { OnOk result (IsAtRest driver.new) }
    ensures obeyed { OnOk result (ObeyedBy (Order.NewPolicy text.now) driver.old (map D.meaning devices.old) driver.new (map D.meaning devices.new)) }
    ensures broken { OnErr result (BreaksOff (bench driver.old (map D.meaning devices.old)) driver.new.desk.past) }
    ensures same { IsSame driver.old driver.new }
{
    resting_laws();
    if renew_policy(rt, driver, text)? {
        driver.deliver_all(rt, devices)
    } else {
        Ok(())
    }
}

// Tells whether the text is a policy's.
fn renew_policy<R: Wait>(rt: &R, driver: &mut Driver<'_>, text: &[u8]) -> Result<bool, Stopped>
    requires kept { IsKept driver.old }
    requires rest { IsAtRest driver.old }
    ensures fits { OnOk result (FitsStill driver.old driver.new) }
    ensures through { OnOk result (IsHeardThrough driver.new) }
    ensures rest { result ≡ Ok false → IsAtRest driver.new }
    ensures asked { OnOk result (AsksToRenew text.now driver.old driver.new) }
    ensures broken { OnErr result (BreaksOffOver driver.old driver.new) }
    ensures same { IsSame driver.old driver.new }
{
    driving_laws();
    resting_laws();
    Ok(driver.renew(rt, text)?)
}

/// The rules of a switch are listed.
///
/// # Errors
///
/// `Stopped`.
pub(crate) fn list_rules<R: Wait>(
    rt: &R,
    driver: &mut Driver<'_>,
    switch: u64,
) -> Result<(), Stopped>
    requires kept { IsKept driver.old }
    requires rest { IsAtRest driver.old }
    ensures fits { OnOk result (FitsStill driver.old driver.new) }
    ensures rest { OnOk result (IsAtRest driver.new) }
    ensures obeyed { OnOk result (ObeyedOver (Order.Rules switch) driver.old driver.new) }
    ensures broken { OnErr result (BreaksOffOver driver.old driver.new) }
    ensures same { IsSame driver.old driver.new }
{
    driving_laws();
    resting_laws();
    Ok(driver.list_rules(rt, switch)?)
}
