// The limits on a policy and on its text.

/// How many bytes a text may have.
pub const MOST_BYTES: usize = 65_536;

/// How many tables may be named.
pub const MOST_TABLES: usize = 16;

/// How many nodes a policy may have.
pub const MOST_NODES: u32 = 4_096;

/// How deep a node may be, counting the statements and expressions around it and itself.
pub const DEEPEST: u32 = 32;

/// How many parentheses may be open at once.
pub const MOST_PARENTHESES: usize = 64;
