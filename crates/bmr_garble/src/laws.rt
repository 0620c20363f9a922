//! What the parties' shares of products and of garbled tables recombine to. A law is the contract of a function
//! that does nothing.

ghost use Rattle.bmr_garble.specs.Laws.{ProductRecombines, ProductTimesRecombine, SharesJoin, PayloadTells};

/// The parties' `mask_close` gives shares of the AND of both masks.
pub fn product_recombines()
    ensures { ProductRecombines }
{}

/// The parties' `product_close` gives shares of the product times each party's offset.
pub fn product_times_recombine()
    ensures { ProductTimesRecombine }
{}

/// The parties' shares of a table, joined, are the garbled table.
pub fn shares_join()
    ensures { SharesJoin }
{}

/// The payload of a table tells its entries.
pub fn payload_tells()
    ensures { PayloadTells }
{}
