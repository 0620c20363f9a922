use std::collections::LinkedList;

/// What a worker knows: its parts of the right to know the whole, the items that it took, and the edges
/// that it gave. No value of it is made.
pub struct View {
    pub parts: u64,
    pub took: LinkedList<u32>,
    pub gave: LinkedList<u32>,
}
