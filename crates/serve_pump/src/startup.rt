// What a run is begun with, and how that goes.
use report_text::ScriptRefusal;

/// What is given to a run beside its policy and settings: the start script, the number of its first line, and the ports
/// for switches and for control text.
#[derive(Drop)]
pub struct Startup<'s> {
    pub(crate) script: &'s [u8],
    pub(crate) first_line: u32,
    pub(crate) listen: u16,
    pub(crate) control: u16,
}

/// How a run has begun.
#[derive(Clone, Copy, Debug, PartialEq, Eq)]
pub enum Begun {
    /// The board listens.
    Listening,
    /// The start script said `quit`: the board wasn't started.
    Quit,
    /// This line of the start script is refused: the board wasn't started.
    Refused { line: u32, kind: ScriptRefusal },
}
