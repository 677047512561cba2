// What holds of whatever is sent and read.
ghost use Rattle.board_lines.specs.Laws.{AnyFirstLine, AnyPieces, BeginsAsOrdered, BeginsAt, EndsAt, GoesOnAt, IsFew, KeepsAll};
ghost use Rattle.board_lines.specs.Laws.{KeepsFaults, NothingElse, PoliciesAlike, RefusedAlike};

/// What a reader gave and what it holds are what the text has that was read so far: when it is new,
/// behind each byte, and at the end. So pieces make no difference, nor does the number of the first line.
/// A line begins the text of a policy just where it asks for a new policy as a line of a script.
pub fn control_laws()
    ensures begins { BeginsAt }
    ensures goes_on { GoesOnAt }
    ensures ends { EndsAt }
    ensures pieces { AnyPieces }
    ensures numbered { AnyFirstLine }
    ensures ordered { BeginsAsOrdered }
{}

/// The text of a policy is kept whole where it has at most 65,536 bytes, and no more than 68,696 bytes are
/// kept of any. What is kept has the first fault that the text has; it is of the policies that the text is
/// of, and is refused as the text is.
pub fn kept_laws()
    ensures all { KeepsAll }
    ensures few { IsFew }
    ensures faults { KeepsFaults }
    ensures policies { PoliciesAlike }
    ensures refused { RefusedAlike }
{}

/// Sends for a connection leave all else of a log as it was.
pub fn sending_laws()
    ensures { NothingElse }
{}
