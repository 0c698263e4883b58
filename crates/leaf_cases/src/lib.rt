// The calls of the leaf modules and of lifecycle at their edges, a line for each group.
#![tactic(auto)]

pub mod life;
pub mod parks;
pub mod ring;
pub mod waits;
pub mod wakes;
