//! What all parties see of wires recombines after each call. A law is the contract of a function that does nothing.

ghost use Rattle.bmr_eval.specs.Laws.{EntryRecombines, ZeroRecombines, FlipRecombines, XorRecombines, SliceRecombines, JoinRecombines, AndRecombines, WiresEvaluate};

/// The owner's masked bits, and what each party's `enter` makes of them, are a wire of the owner's vector.
pub fn entry_recombines()
    ensures { EntryRecombines }
{}

/// `eval_zero` gives, with the parties' `MaskPart::constant`, a wire of the public vector.
pub fn zero_recombines()
    ensures { ZeroRecombines }
{}

/// With the parties' `MaskPart::flip` what all see is a wire of the flipped vector.
pub fn flip_recombines()
    ensures { FlipRecombines }
{}

/// `eval_xor` gives, with the parties' `MaskPart::xor`, a wire of the XOR.
pub fn xor_recombines()
    ensures { XorRecombines }
{}

/// `eval_slice` gives, with the parties' `MaskPart::slice`, a wire of the slice.
pub fn slice_recombines()
    ensures { SliceRecombines }
{}

/// `eval_join` gives, with the parties' `MaskPart::join`, a wire of the join.
pub fn join_recombines()
    ensures { JoinRecombines }
{}

/// `eval_and` on a garbled table gives, with the parties' fresh mask, a wire of the AND.
pub fn and_recombines()
    ensures { AndRecombines }
{}

/// The same of all that makes a wire.
pub fn wires_evaluate()
    ensures { WiresEvaluate }
{}
