// The writer's checks of the record's fields, group by group: each says the first refusal in field
// order.
#![tactic(auto)]

pub mod address;
pub mod block;
pub mod dtg;
pub mod format;
pub mod front;
pub mod handling;
pub mod part;
pub mod references;
pub mod response;
pub mod texts;
pub mod times;
