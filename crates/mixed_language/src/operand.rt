use share_types::WireType;

/// An operand: the number of the statement that gives it, and how it is shared.
#[derive(Clone, Copy, Debug, PartialEq, Eq)]
pub struct Operand {
    pub at: u32,
    pub wire: WireType,
}
