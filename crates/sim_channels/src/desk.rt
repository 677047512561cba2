// What the driver's desk tells and does, for who runs a script.
ghost use Rattle.std.specs.Prelude.{◌≡◌, ◌≢◌, true, Err, IfErr, IfOk, OnOk};
ghost use Rattle.machine_steps.specs.Admitting.{IsOperators};
ghost use Rattle.machine_steps.specs.declared.entry.Entry.TheVariants as entries;
ghost use Rattle.maple_io.specs.Views.{NoWriteFailed};
ghost use Rattle.machine_desk.specs.Desks.{DeskLaw, HadMemory, calls_of};
ghost use Rattle.machine_desk.specs.Orders.{Asked, Changes, Renews, Stops, StopsRenewing};
ghost use Rattle.machine_desk.specs.Reports.{ReportsBy};
ghost use Rattle.machine_desk.specs.declared.report.ReportStop.TheVariants as stops;

use crate::Driver;
use env_cells::Update;
use machine_desk::{Crew, Desk, DeskStop, ReportStop};
use maple_io::Sink;
use std::alloc::Global;
use std::sync::Wait;

impl<'h> Driver<'h> {
    /// Where the driver takes memory.
    pub fn alloc(&self) -> Global
        ensures { result ≡ self.now.alloc }
    {
        self.alloc
    }

    /// Whether the policy in force learns where hosts are.
    pub fn learning(&self) -> bool
        ensures { result ≡ self.now.desk.now.policy.learning }
    {
        self.desk.learning()
    }

    /// Whether the hall was found worn.
    pub fn is_worn(&self) -> bool
        ensures { result ≡ self.now.desk.worn }
    {
        self.desk.is_worn()
    }

    /// Whether memory sufficed for all calls of the desk's own.
    pub fn had_memory(&self) -> bool
        ensures { result ≡ true → HadMemory (calls_of self.now.desk.past) self.now.desk.own }
    {
        self.desk.had_memory()
    }

    /// What holds of each desk.
    pub fn law(&self)
        ensures { DeskLaw self.now.desk }
    {
        self.desk.law();
    }

    /// Changes what is known of the network, as the desk does.
    ///
    /// # Errors
    ///
    /// As the desk's.
    pub fn change<R: Wait>(&mut self, rt: &R, update: Update) -> Result<bool, DeskStop>
        requires operators { IsOperators update }
        ensures changes { IfOk result (λ made. Changes update made self.old.desk self.new.desk) }
        ensures stops { IfErr result (λ stop. Stops stop (entries.Change update) self.old.desk self.new.desk) }
        ensures rest { self.new ≡ record self.old { desk = self.new.desk } }
        ensures footing { self.new.desk.footing ≡ self.old.desk.footing }
    {
        self.desk.change(rt, update)
    }

    /// Puts the policy of a text in force, as the desk does.
    ///
    /// # Errors
    ///
    /// As the desk's.
    pub fn renew<R: Wait>(&mut self, rt: &R, text: &[u8]) -> Result<bool, DeskStop>
        ensures renews { IfOk result (λ accepted. Renews accepted text.now self.old.desk self.new.desk) }
        ensures stops { IfErr result (λ stop. StopsRenewing stop text.now self.old.desk self.new.desk) }
        ensures rest { self.new ≡ record self.old { desk = self.new.desk } }
        ensures footing { self.new.desk.footing ≡ self.old.desk.footing }
    {
        self.desk.renew(rt, self.alloc, text)
    }

    /// Lists the rules of a switch in the report, as the desk does.
    ///
    /// # Errors
    ///
    /// As the desk's.
    pub fn list_rules<R: Wait>(&mut self, rt: &R, switch: u64) -> Result<(), DeskStop>
        ensures asked { OnOk result (Asked (entries.ReadRules switch) self.old.desk self.new.desk) }
        ensures stops { IfErr result (λ stop. Stops stop (entries.ReadRules switch) self.old.desk self.new.desk) }
        ensures rest { self.new ≡ record self.old { desk = self.new.desk } }
        ensures footing { self.new.desk.footing ≡ self.old.desk.footing }
    {
        self.desk.list_rules(rt, switch)
    }

    /// The lines that the report gained are taken from the machine and written.
    ///
    /// # Errors
    ///
    /// As the desk's `write_report`.
    pub fn write_report<R: Wait, O: Sink>(&mut self, rt: &R, out: &mut O) -> Result<(), ReportStop>
        ensures reports { ReportsBy result self.old.desk self.new.desk (O.tells out.old) (O.tells out.new) }
        ensures spared { result ≢ Err stops.Failed → NoWriteFailed (O.tells out.old) (O.tells out.new) }
        ensures rest { self.new ≡ record self.old { desk = self.new.desk } }
        ensures footing { self.new.desk.footing ≡ self.old.desk.footing }
    {
        self.desk.write_report(rt, out)
    }

    /// The desk again, and who works beside it, as all is done.
    pub fn into_parts(self) -> (Desk<'h>, Option<Crew<'h>>)
        ensures desk { result.0 ≡ self.entry.desk }
        ensures crew { result.1 ≡ self.entry.crew }
    {
        let Driver { desk, crew, .. } = self;
        (desk, crew)
    }
}
