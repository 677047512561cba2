// Which updates are refused.
ghost use Rattle.std.specs.Prelude.{◌≡◌, ℕ, true, false, Ok, Err, if◌then◌else◌};
ghost use Rattle.std.specs.FinMap as map;
ghost use Rattle.std.specs.FinSet as set;
ghost use Rattle.env_cells.specs.declared.updates.Update.TheVariants as updates;
ghost use Rattle.maple_base.specs.declared.update_refused.UpdateRefused.TheVariants.{UnknownSwitch, UnknownTable, PortRange};
ghost use Rattle.maple_base.specs.Ports.{is_port};
ghost use Rattle.env_cells.specs.Answers.{Tells};
ghost use Rattle.env_cells.specs.Behind.{listed_in};
ghost use Rattle.env_cells.specs.Environment.{declares, knows};
ghost use Rattle.env_cells.specs.Most.{most_switches, most_up_ports};
ghost use Rattle.env_cells.specs.Refusals.{else_full, full, refusal_of};

use crate::environment::{Env, MOST_HOSTS, MOST_LINKS, MOST_NUMBERS, MOST_SWITCHES, MOST_UP_PORTS};
use crate::up_ports::UpPorts;
use crate::updates::Update;
use maple_base::{Name, Place, UpdateRefused, is_port};

impl Env {
    /// Whether an update is refused. The ports are those that it lists.
    pub(crate) fn check(&self, update: &Update, listed: &UpPorts) -> Result<(), UpdateRefused>
        requires { listed.now ≡ listed_in update.now }
        ensures { Tells result (refusal_of self.now update.now) }
    {
        match update {
            Update::Switch { switch, .. } => self.check_listed(*switch, listed),
            Update::Port { switch, port, up } => {
                if *up {
                    self.check_raised(*switch, *port)
                } else {
                    self.check_lowered(*switch, *port)
                }
            }
            Update::Host { mac, place } => self.check_host(*mac, *place),
            Update::NoHost { .. } => Ok(()),
            Update::Link { from, to } => self.check_link(*from, *to),
            Update::NoLink { from } => self.check_start(*from),
            Update::Set { table, key, .. } => self.check_number(table, *key),
            Update::Unset { table, .. } => self.check_table(table),
            Update::Tables(_) => Ok(()),
        }
    }

    /// Whether these can be the up ports of a switch.
    pub(crate) fn check_listed(&self, switch: u64, up: &UpPorts) -> Result<(), UpdateRefused>
        ensures { Tells result (else_full (full (map.len (map.insert self.now.switches switch up.now)) most_switches) (set.len up.now) most_up_ports) }
    {
        check_room(self.switches.len_with(switch), MOST_SWITCHES)?;
        check_room(up.len(), MOST_UP_PORTS)
    }

    /// Whether a port can go up.
    pub(crate) fn check_raised(&self, switch: u64, port: u16) -> Result<(), UpdateRefused>
        ensures { Tells result (refusal_of self.now (updates.Port switch port true)) }
    {
        let Some(up) = self.switches.get(switch) else {
            return Err(UpdateRefused::UnknownSwitch);
        };
        check_port(u64::from(port))?;
        check_room(up.len_with(port), MOST_UP_PORTS)
    }

    /// Whether a port can go down.
    pub(crate) fn check_lowered(&self, switch: u64, port: u16) -> Result<(), UpdateRefused>
        ensures { Tells result (refusal_of self.now (updates.Port switch port false)) }
    {
        self.check_switch(switch)?;
        check_port(u64::from(port))
    }

    /// Whether a host can be at a place.
    pub(crate) fn check_host(&self, mac: u64, place: Place) -> Result<(), UpdateRefused>
        ensures { Tells result (refusal_of self.now (updates.Host mac place)) }
    {
        self.check_switch(place.switch)?;
        check_port(place.port)?;
        check_room(self.hosts.len_with(mac), MOST_HOSTS)
    }

    /// Whether a link can lead from one place to another.
    pub(crate) fn check_link(&self, from: Place, to: Place) -> Result<(), UpdateRefused>
        ensures { Tells result (refusal_of self.now (updates.Link from to)) }
    {
        self.check_switch(from.switch)?;
        self.check_switch(to.switch)?;
        check_port(from.port)?;
        check_port(to.port)?;
        check_room(self.links.len_with(&from), MOST_LINKS)
    }

    /// Whether a link can begin at a place.
    pub(crate) fn check_start(&self, from: Place) -> Result<(), UpdateRefused>
        ensures { Tells result (refusal_of self.now (updates.NoLink from)) }
    {
        self.check_switch(from.switch)?;
        check_port(from.port)
    }

    /// Whether a table can have a number at a key.
    pub(crate) fn check_number(&self, table: &Name, key: u64) -> Result<(), UpdateRefused>
        ensures { (value : ℕ) → Tells result (refusal_of self.now (updates.Set table.now key value)) }
    {
        let Some(numbers) = self.tables.get(table) else {
            return Err(UpdateRefused::UnknownTable);
        };
        check_room(numbers.len_with(key), MOST_NUMBERS)
    }

    /// Whether a table is declared.
    pub(crate) fn check_table(&self, table: &Name) -> Result<(), UpdateRefused>
        ensures { result ≡ (if declares self.now table.now then Ok tt else Err UnknownTable) }
    {
        if self.tables.has(table) {
            Ok(())
        } else {
            Err(UpdateRefused::UnknownTable)
        }
    }

    fn check_switch(&self, switch: u64) -> Result<(), UpdateRefused>
        ensures { result ≡ (if knows self.now switch then Ok tt else Err UnknownSwitch) }
    {
        if self.knows(switch) {
            Ok(())
        } else {
            Err(UpdateRefused::UnknownSwitch)
        }
    }
}

fn check_port(number: u64) -> Result<(), UpdateRefused>
    ensures { result ≡ (if is_port number then Ok tt else Err PortRange) }
{
    if is_port(number) {
        Ok(())
    } else {
        Err(UpdateRefused::PortRange)
    }
}

fn check_room(count: u64, limit: u64) -> Result<(), UpdateRefused>
    ensures { Tells result (full count limit) }
{
    if count <= limit {
        Ok(())
    } else {
        Err(UpdateRefused::Full { count, limit })
    }
}
