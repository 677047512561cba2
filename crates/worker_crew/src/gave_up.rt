/// Why a worker gave up.
#[derive(Clone, Copy, Debug, PartialEq, Eq)]
pub enum GaveUp {
    /// Memory ran out in a work.
    NoMemory,
    /// The hall takes no more calls.
    Worn,
}
