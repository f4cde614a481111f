// Reading the references of a message block, a whole block, and the list of blocks into the octets of a record, which are all 0 before.
#![tactic(auto)]

pub mod block;
pub mod references;
