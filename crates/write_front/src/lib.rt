// Writing the fields up to the end of G3, group by group.
#![tactic(auto)]

pub mod front;
