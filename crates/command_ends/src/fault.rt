use bristol_reader::BristolCause;
use dealer_files::DealerError;
use mixed_circuit::CircuitCause;

/// What is wrong with a line of a circuit's text, by its language.
#[derive(Clone, Copy, Debug, PartialEq, Eq)]
pub enum CircuitFault {
    Mixed(CircuitCause),
    Bristol(BristolCause),
}

/// A field of a part that is compared.
#[derive(Clone, Copy, Debug, PartialEq, Eq)]
pub enum Field {
    /// How many parties the deal is for.
    Parties,
    /// The party whose part it is.
    Party,
    /// The number of the deal.
    Id,
    /// How many multiplication triples there are.
    Mult,
    /// How many bit triples.
    Bit,
    /// How many bits that are shared both by XOR and by sum.
    Shared,
    /// How many bits that are shared by XOR, with shares of their products with the offsets.
    Key,
}

/// A field of a part that is not as expected.
#[derive(Clone, Copy, Debug, PartialEq, Eq)]
pub struct Difference {
    pub field: Field,
    pub expected: u64,
    pub found: u64,
}

/// What is wrong with the file of a party's part.
#[derive(Clone, Copy, Debug, PartialEq, Eq)]
pub enum PartFault {
    /// It is no dealer file.
    Unread(DealerError),
    /// It is, and a field of the part is not as expected.
    Differs(Difference),
}
