// The calls of the task table at their edges, a line for each group.
#![tactic(auto)]

pub mod damage;
pub mod table;
