// The session of a connection, with what is prepared for it.
use switch_session::{Aim, Session};

/// The session of a connection, and the aim that an update is making ready for it.
#[derive(Drop)]
pub struct Connection {
    pub session: Session,
    pub aim: Option<Aim>,
}
