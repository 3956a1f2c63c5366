//! The numbers of nodes.

/// How many numbers of nodes there are.
pub const NODES: usize = 256;
