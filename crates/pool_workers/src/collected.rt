/// What a run of all items gave.
#[derive(Drop)]
pub struct Collected<E> {
    /// The value on each edge that ends at no item, in the order of the edges.
    pub ends: Vec<E>,
    /// The numbers of the items that each worker ran, in the order in which it ran them.
    pub ran: Vec<Vec<u32>>,
}
