/// What a worker passes on its way through an item. It has no contract: a caller may hold a worker
/// back there, to see what others do meanwhile.
pub trait Turnstile {
    /// A worker calls this before it runs the item.
    fn enter(&self, item: u32);

    /// A worker calls this after it ran the item.
    fn leave(&self, item: u32);
}

/// Holds nobody back.
#[derive(Clone, Copy, Debug, PartialEq, Eq)]
pub struct OpenGate;

impl Turnstile for OpenGate {
    fn enter(&self, _item: u32) {}

    fn leave(&self, _item: u32) {}
}
