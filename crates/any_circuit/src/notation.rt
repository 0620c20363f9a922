/// How the values of outputs are written.
#[derive(Clone, Copy, Debug, PartialEq, Eq)]
pub enum Notation {
    /// In decimal digits.
    Decimal,
    /// As `0x` and a lower-case hexadecimal digit for each four bits.
    Hexadecimal,
}
