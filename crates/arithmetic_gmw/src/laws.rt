//! What shares recombine to once each party has made a call. A law is the contract of a function that
//! does nothing.

ghost use Rattle.arithmetic_gmw.specs.Laws.{SumRecombines, DifferenceRecombines, ScaledRecombines, RaisedRecombines, ProductRecombines};

/// The parties' `add` gives shares of the sum.
pub fn sum_recombines()
    ensures { SumRecombines }
{}

/// The parties' `sub` gives shares of the difference.
pub fn difference_recombines()
    ensures { DifferenceRecombines }
{}

/// The parties' `mul_const` gives shares of the value times the constant.
pub fn scaled_recombines()
    ensures { ScaledRecombines }
{}

/// The parties' `add_const` gives shares of the value plus the constant.
pub fn raised_recombines()
    ensures { RaisedRecombines }
{}

/// The parties' `mul_close` gives shares of the product of what `mul_open` was given shares of.
pub fn product_recombines()
    ensures { ProductRecombines }
{}
