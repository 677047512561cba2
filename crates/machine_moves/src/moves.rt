// What each turn of the machine does to each session, and to what was.
ghost use Rattle.machine_moves.specs.MoveLaws.{SessionsMove, SessionsOpen, ConnectionsOpen, OpenIsKept, StatesGrow};

/// An entry does at most two things to an open session; a session is opened by its Open alone.
pub fn session_laws()
    ensures moves { SessionsMove }
    ensures opens { SessionsOpen }
    ensures kept { OpenIsKept }
{}

/// Connections that were opened, states and policies stay what they were.
pub fn growth_laws()
    ensures connections { ConnectionsOpen }
    ensures states { StatesGrow }
{}
