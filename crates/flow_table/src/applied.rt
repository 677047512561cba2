/// What a change of a flow table answers.
#[derive(Clone, Copy, Debug, PartialEq, Eq)]
pub enum Applied {
    /// The rule was put in.
    Added,
    /// The rule took the place of the one of equal match and priority.
    Replaced,
    /// So many rules were removed.
    Deleted(u32),
    /// The rule's match and priority are new and the table has no room; it is as before.
    Full,
    /// Memory ran out; the table is as before.
    NoMemory,
}
