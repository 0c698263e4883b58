// The calls over the C boundary. A table's arrays cross as pointers and are changed where they lie; its small part goes in and comes
// back by value; an answer is numbers. Every call is a checked one, so it takes any bits whatever.
#![tactic(auto)]

pub mod deadlines;
pub mod ring;
pub mod small; // ids and verdicts, with no table
pub mod tasks; // task tables made and changed
pub mod tells; // task tables read
pub mod waits;
pub mod wakes;
