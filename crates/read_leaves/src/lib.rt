// Numbers, numbers that may be absent, and texts, read from a datagram into the octets of a record that are their own.
#![tactic(auto)]

pub mod numbers;
pub mod texts;
