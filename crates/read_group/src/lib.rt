// Reading the groups of a message block up to G8 into the octets of a record, which are all 0 before.
#![tactic(auto)]

pub mod dtg;
pub mod format;
pub mod handling;
pub mod response;
pub mod times;
