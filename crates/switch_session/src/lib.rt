//! A switch's session: which messages a controller sends it, and when.
//!
//! A session begins with a handshake. Each side says HELLO; the switch is asked what it is and tells
//! its number; then its table is cleared, and the session is ready. From then on it leads the switch
//! to the rules that it is aimed at, and hears what the switch says meanwhile.
//!
//! An update leads from one list of rules to another in parts, each with a barrier request behind it:
//! a clearing, where the table has no room for what it would pass through; a first batch, in which
//! barriers come and facts go; a second one, in which facts come and barriers go. A part leaves with
//! the reply to the barrier before it and no sooner, since a switch may reorder what stands between
//! two barriers. So one part at most is under way.
//!
//!     aimed at B   first batch, barrier 4 >
//!                                          < reply 4
//!                  second batch, barrier 7 >
//!     aimed at C                              waits
//!     aimed at D                              waits in C's place
//!                                          < reply 7
//!                  the first batch from B to D, barrier 9 >
//!
//! An update that overtakes another replaces only one of which nothing was sent, and it is planned
//! from the list that the running update leads to: there the switch will be by then.
//!
//! Where the switch refuses a change, what its table will have isn't known any more. Then the session
//! is quiet: it heads for no rules, and a clearing follows in place of all parts to come, at once or
//! with the reply to the outstanding barrier. A clearing that is refused ends the session.
//!
//! An error tells of the message whose number it has. It counts only where that number was taken out:
//! a switch can't know another. For the same reason a reply to a barrier that wasn't taken out ends
//! the session.
//!
//! What follows a reply or an error takes no memory. The outbox has the room for it from the call on
//! that prepared the update, and what is put in makes its own room on top.
#![tactic(auto)]

mod laws;
mod outbox;
mod part;
mod parts;
mod session;
mod told;

pub use laws::session_laws;
pub use parts::Aim;
pub use session::{Session, Start};
pub use told::{End, Heard, Phase};
