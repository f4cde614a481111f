// Reading the fields up to the end of G3 into the octets of a record, which are all 0 before.
#![tactic(auto)]

pub mod address;
pub mod front;
