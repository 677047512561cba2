// How a live session goes from one part of an update to the next, and from one update to the next.
ghost use Rattle.world_stages.specs.Updates.{UpdatesStart, RepliesLeadOn, SignalsAreKnown, AimsAreKept, AcceptedAreCleared};

use crate::flights::{hearing_laws, sending_laws};
use update_plan::{batch_laws, shield_laws};

/// An update starts where nothing is under way; the reply to a part's barrier leads to the next
/// part, to the next update, to the clearing behind an error, or to rest; any other signal is an
/// ERROR of the part. A session that is aimed at other rules starts an update or keeps it for later,
/// and one that is accepted is in its first clearing.
pub fn update_laws()
    ensures start { UpdatesStart }
    ensures replies { RepliesLeadOn }
    ensures signals { SignalsAreKnown }
    ensures aims { AimsAreKept }
    ensures accepted { AcceptedAreCleared }
{
    batch_laws();
    shield_laws();
    hearing_laws();
    sending_laws();
}
