// The leaves of a record where they lie in its octets: numbers, presence flags, numbers that may be absent, and texts, checked,
// followed to their end and written; stamps and requests, loaded; the room that G2 leaves for G3; and single fields of a block.
#![tactic(auto)]

pub mod addressees;
pub mod block;
pub mod moment;
pub mod numbers;
pub mod requests;
pub mod setting;
pub mod texts;
