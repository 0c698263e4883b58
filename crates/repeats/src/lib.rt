// The works of `bench/` as loops of our own calls, for what a call costs without the boundary: by the inner calls, on tables known
// sound, and by the calls of the product, which test the table each time. Every loop gives the sum of its answers, which `bench/`
// holds against the Rust's.
#![tactic(auto)]

pub mod checked; // by the calls of the product
pub mod known; // by the inner calls
pub mod sums; // an answer, added
