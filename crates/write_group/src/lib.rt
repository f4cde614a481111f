// Writing the groups of a message block, addresses and references.
#![tactic(auto)]

pub mod address;
pub mod dtg;
pub mod format;
pub mod handling;
pub mod part;
pub mod references;
pub mod response;
pub mod texts;
pub mod times;
