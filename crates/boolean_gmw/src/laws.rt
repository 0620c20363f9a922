//! What shares recombine to once each party has made a call. A law is the contract of a function that
//! does nothing.

ghost use Rattle.boolean_gmw.specs.Laws.{XorRecombines, FlippedRecombines, SliceRecombines, JoinRecombines, AndRecombines};

/// The parties' `xor` gives shares of the XOR.
pub fn xor_recombines()
    ensures { XorRecombines }
{}

/// The parties' `xor_const` gives shares of the XOR with the constant.
pub fn flipped_recombines()
    ensures { FlippedRecombines }
{}

/// The parties' `Bits::slice` gives shares of the slice.
pub fn slice_recombines()
    ensures { SliceRecombines }
{}

/// The parties' `Bits::join` gives shares of the join.
pub fn join_recombines()
    ensures { JoinRecombines }
{}

/// The parties' `and_close` gives shares of the AND of what `and_open` was given shares of.
pub fn and_recombines()
    ensures { AndRecombines }
{}
