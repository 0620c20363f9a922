//! What the parties' parts of masks recombine to once each party has made a call. A law is the contract of a
//! function that does nothing.

ghost use Rattle.bmr_keys.specs.Laws.{FreshRecombine, ZeroKeysAreEven, ConstantRecombines, XorRecombines, FlipRecombines, SliceRecombines, JoinRecombines, UsesAreApart};
ghost use Rattle.bmr_keys.specs.Payload.{KeysHaveBytes, KeysReadBack};

/// Honest key records and zero keys of tapes give parts of one fresh mask.
pub fn fresh_recombine()
    ensures { FreshRecombine }
{}

/// The zero keys of a tape have least bit 0.
pub fn zero_keys_are_even()
    ensures { ZeroKeysAreEven }
{}

/// The parties' `MaskPart::constant` gives parts of a mask that is the public vector.
pub fn constant_recombines()
    ensures { ConstantRecombines }
{}

/// The parties' `MaskPart::xor` gives parts of the XOR of both masks.
pub fn xor_recombines()
    ensures { XorRecombines }
{}

/// The parties' `MaskPart::flip` gives parts of the XOR of the mask and the public vector.
pub fn flip_recombines()
    ensures { FlipRecombines }
{}

/// The parties' `MaskPart::slice` gives parts of the slice of the mask.
pub fn slice_recombines()
    ensures { SliceRecombines }
{}

/// The parties' `MaskPart::join` gives parts of the join of both masks.
pub fn join_recombines()
    ensures { JoinRecombines }
{}

/// Keys that `key_payload` writes are read back by `key_in`.
pub fn keys_read_back()
    ensures length { KeysHaveBytes }
    ensures keys { KeysReadBack }
{}

/// Two different uses of a tape, zero keys and share words, have no place in common.
pub fn uses_are_apart()
    ensures { UsesAreApart }
{}
