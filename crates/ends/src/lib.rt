// Where the groups of a record end when they are written at a place.
#![tactic(auto)]

pub mod address;
pub mod block;
pub mod dtg;
pub mod format;
pub mod front;
pub mod handling;
pub mod part;
pub mod references;
pub mod response;
pub mod texts;
pub mod times;
