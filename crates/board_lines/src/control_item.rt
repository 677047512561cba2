// What a control text has.
use maple_base::Bytes;

/// What stands next in a control text, with the number of its line, or of its first: lines count from 1,
/// and their numbers stand still at 2^32 - 1.
#[derive(Drop)]
pub enum ControlItem {
    /// A line, without its line feed. It has at most 8,192 bytes.
    Line { number: u32, text: Bytes },
    /// A line of more than 8,192 bytes.
    TooLong { number: u32 },
    /// The text of a new policy, behind the line `newpolicy` with this number. Where it has more than
    /// 65,536 bytes it is one that is refused in the same way, of at most 68,696 bytes.
    Policy { number: u32, text: Bytes },
}
