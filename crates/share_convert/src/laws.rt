//! Conversions keep the number. A law is the contract of a function that does nothing.

ghost use Rattle.share_convert.specs.Laws.{KeysOpen, BitsSum};

/// The parties' `y_to_b` gives XOR shares of what the wire recombines to.
pub fn keys_open()
    ensures { KeysOpen }
{}

/// The parties' `b_to_a_close` gives shares by sum of what `b_to_a_open` was given XOR shares of.
pub fn bits_sum()
    ensures { BitsSum }
{}
