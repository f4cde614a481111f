// The text of one row of the listing: its length, and putting it into lent output.
#![tactic(auto)]

pub mod addresses;
pub mod digits;
pub mod recipients;
pub mod rows;
