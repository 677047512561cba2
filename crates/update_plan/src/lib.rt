//! The two batches of changes that lead a switch from one list of rules to another.
//!
//! A switch carries out changes of its table in whatever order it likes, until a barrier request, and
//! may refuse any of them. Meanwhile packets come. So which changes go first, which second, that no
//! packet meets a rule that it must not meet?
//!
//! An example. The policy drops what goes to port 22, and sends all other TCP out of port 2:
//!
//!     3  drop       tcp to 22      a fact: does what was decided
//!     2  barrier    tcp to 22      sends to the controller
//!     1  out 2      tcp            a fact
//!
//! Put into an empty table at once, rule 1 may come first, and a packet to port 22 goes out of port 2.
//! With the barrier ahead of both facts that packet meets the barrier or rule 3, and never rule 1
//! alone. Where all barriers of a list stand, facts of that list may come and go in any order, and a
//! further barrier sends a packet to the controller at the worst: the table is shielded by the list.
//!
//! So an update has two batches, with a barrier request behind each.
//!
//!     first     the new barriers come, the old facts go      shielded by the old list
//!     second    the new facts come, the old barriers go      shielded by the new list
//!
//! From `1 drop tcp to 22` to the rules above: first the barrier comes and the drop rule goes, then
//! both facts come. Before the second batch the table has just the barrier, which both lists allow.
//!
//! A rule that is added takes the place of the one of its match and priority. What that replaces isn't
//! deleted: the deletion might come behind the addition. So no batch adds and deletes at one place,
//! and its changes lead to one end in whatever order. And a barrier is told by its match and its
//! priority alone, so that none is replaced by another one. The laws rest on these two facts.
//!
//! Between the lists the table may have more rules than either. Where a peak passes the room of the
//! switch, the table is cleared first, and the batches lead from the empty list.
//!
//! The lists are sorted copies while a plan is made. A rule's place, its match and priority, is looked
//! up by bisection over numbers that tell them. The order of rules by bytes wouldn't do: of an Ethernet
//! address it sees 48 bits, and nothing is asked of a match's numbers.
#![tactic(auto)]

mod batch;
mod changes;
mod laws;
mod lookup;
mod planning;
mod told;

pub use laws::{batch_laws, shield_laws};
pub use planning::plan;
pub use told::Plan;
