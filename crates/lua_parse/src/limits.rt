//! How long and how deep a text may be.

/// How many levels deep anything in a text stands at most.
pub const MAX_LEVEL: usize = 60;

/// How many binary operators an expression has at most.
pub const MAX_OPERATORS: usize = 1_000;

/// How many suffixes an expression has at most.
pub const MAX_SUFFIXES: usize = 1_000;
