// Writing a message block, and the list of them.
#![tactic(auto)]

pub mod block;
