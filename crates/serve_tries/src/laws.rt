// Runs that are right, and some that are wrong.
ghost use Rattle.serve_tries.specs.Ends.{DoneTooSoon, FirstFails, Gathers, GoesOn, LacksMemory, PassesOver, RefusesNone};
ghost use Rattle.serve_tries.specs.Ends.{RefusesWithout, StartFails, StartsBehindQuit, ThirdFails, Unwritten, WriteFails};
ghost use Rattle.serve_tries.specs.Lines.{CommittedUntold, CutLineAsks, DecidedBehindThree, DecidedBehindTwo, EndAsks};
ghost use Rattle.serve_tries.specs.Lines.{NoneBehindQuit, NothingAsks, PlacesAreRefused, PolicyAsks};
ghost use Rattle.serve_tries.specs.More.{LineIsRefused, OpensInVain, Passes, ScriptIsRefused, ScriptQuits, SendFails, StreamBreaks, Waits};
ghost use Rattle.serve_tries.specs.Row.{RowIsCut, RowIsDone, RowIsOpenedOnce, RowLeads, RunsAreAtEnd};
ghost use Rattle.serve_tries.specs.Whole.{Crowded, LaterIsDone, LeftOpen, NoneIsCrowded, WholeIsDone, WholeIsSent};
ghost use Rattle.serve_tries.specs.Wrong.{ClosedEarly, DecidedAtOnce, EndIsSeen, HeardBehindEnd, NeverSent, NotClosed};
ghost use Rattle.serve_tries.specs.Wrong.{NotTold, OpenedTwice, SentBehindClose, SentTwice, Skipped, TakenTooSoon, TwoTurnsInOne};

/// A connection is opened, a HELLO comes, and the control text says `quit`: this run is done. What is said here of runs at an
/// end is said of each run.
pub fn row_law()
    ensures cut { RowIsCut }
    ensures opened { RowIsOpenedOnce }
    ensures leads { RowLeads }
    ensures done { RowIsDone }
    ensures runs { RunsAreAtEnd }
{}

/// What was taken out is never sent; a line of the control text is skipped; a message is heard behind
/// the session's end; and others: no part is so.
pub fn wrong_laws()
    ensures unsent { NeverSent }
    ensures skipped { Skipped }
    ensures heard { HeardBehindEnd }
    ensures seen { EndIsSeen }
    ensures twice { SentTwice }
    ensures untold { NotTold }
    ensures soon { TakenTooSoon }
    ensures unclosed { NotClosed }
    ensures early { ClosedEarly }
    ensures late { SentBehindClose }
    ensures decided { DecidedAtOnce }
    ensures turns { TwoTurnsInOne }
    ensures opened { OpenedTwice }
{}

/// A send fails; one finds no room; a session ends, and bytes behind that are passed over; a connection
/// is refused; a line is: these parts and runs are right.
pub fn more_laws()
    ensures fails { SendFails }
    ensures waits { Waits }
    ensures passes { Passes }
    ensures vain { OpensInVain }
    ensures line { LineIsRefused }
    ensures script { ScriptIsRefused }
    ensures quits { ScriptQuits }
    ensures breaks { StreamBreaks }
{}

/// The worked row whole: what came, what was replied and what was sent are those of a run that is done,
/// and 274 bytes were sent. With workers a job may be open at the end of a part, and without none. No run
/// has a packet that finds too many others waiting.
pub fn whole_law()
    ensures done { WholeIsDone }
    ensures sent { WholeIsSent }
    ensures later { LaterIsDone }
    ensures left { LeftOpen }
    ensures crowded { Crowded }
    ensures none { NoneIsCrowded }
{}

/// The board fails at its start, or as it is asked for a turn, or a write fails: these runs are so. Runs
/// that end too soon, or not at all, that lacked memory, whose report isn't written, or not as it comes, or
/// that pass over a refused line of the start script are none.
pub fn end_laws()
    ensures start { StartFails }
    ensures first { FirstFails }
    ensures third { ThirdFails }
    ensures write { WriteFails }
    ensures gathers { Gathers }
    ensures done { DoneTooSoon }
    ensures on { GoesOn }
    ensures lacks { LacksMemory }
    ensures without { RefusesWithout }
    ensures unwritten { Unwritten }
    ensures over { PassesOver }
    ensures none { RefusesNone }
    ensures quit { StartsBehindQuit }
{}

/// Lines ask where they end, each once, and none behind `quit`; the text of a new policy asks where it ends;
/// a line that names a place is refused. The machine is asked to run the policy itself behind three stale
/// runs for a job that was told, and not behind two; no run is committed for one that wasn't.
pub fn line_law()
    ensures cut { CutLineAsks }
    ensures nothing { NothingAsks }
    ensures quit { NoneBehindQuit }
    ensures policy { PolicyAsks }
    ensures end { EndAsks }
    ensures places { PlacesAreRefused }
    ensures three { DecidedBehindThree }
    ensures two { DecidedBehindTwo }
    ensures untold { CommittedUntold }
{}
