/// An edge from one item to another, which are told by their numbers.
#[derive(Clone, Copy, Debug, PartialEq, Eq)]
pub struct Edge {
    /// The item where it starts, or `OUTSIDE`.
    pub source: u32,
    /// The item where it ends, or `TERMINAL`.
    pub target: u32,
}

/// Stands in place of the source of an edge that comes from outside.
pub const OUTSIDE: u32 = u32::MAX;

/// Stands in place of the target of an edge that ends at no item.
pub const TERMINAL: u32 = u32::MAX;
