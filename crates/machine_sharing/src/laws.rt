// What holds of the histories of threads that share the machine.
ghost use Rattle.machine_sharing.specs.Between.{EachDoesSo, MostStays, NothingChanges, SinceStays};
ghost use Rattle.machine_sharing.specs.Legal.{CallsAreTurns, StatesAreSound, TurnsAreCalls};
ghost use Rattle.machine_sharing.specs.Longer.{AllowedStays, PoliciesStay, RunsAreAdmitted, SettingsStay, ThreeStay, ToldStays};

use machine_steps::machine_laws;

/// Of allowed entries, behind each other: with no job open they change nothing; else sessions stay open and jobs only go. And what each of them does to
/// one session.
pub fn between_laws()
    ensures frozen { NothingChanges }
    ensures stays { MostStays }
    ensures since { SinceStays }
    ensures does { EachDoesSo }
{}

/// What was seen stands in each longer history: three replies Stale, what is allowed by them, and the policies that were told. The settings stay, and a
/// policy that was told is that of its number in each longer legal history, so that a run of it may be committed.
pub fn longer_laws()
    ensures three { ThreeStay }
    ensures allowed { AllowedStays }
    ensures told { ToldStays }
    ensures settings { SettingsStay }
    ensures policies { PoliciesStay }
    ensures runs { RunsAreAdmitted }
{}

/// A legal history of calls is one of the machine's turns, and the other way round; the machine behind it is sound.
pub fn legal_laws()
    ensures turns { CallsAreTurns }
    ensures calls { TurnsAreCalls }
    ensures sound { StatesAreSound }
{
    machine_laws();
}
