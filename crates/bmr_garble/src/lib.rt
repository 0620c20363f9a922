//! Garbled tables of BMR: the shares of the products of masks, and a party's share of a table, which is XORed with
//! the others'.
#![tactic(auto)]

mod laws;
mod product;
mod table;

pub use laws::{payload_tells, product_recombines, product_times_recombine, shares_join};
pub use product::{mask_close, mask_open, product_close};
pub use table::{Table, table_share};
