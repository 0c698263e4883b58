// A sum, and an answer as a number added to it.
use answers::{Answered, Refusal};
use ids::{TaskId, Token};
use switch::Decision;

const NONE: u64 = u64::MAX;

const REFUSED: u64 = 2;

// What an answer counts: done counts one, none and a stay as much as can be, a switch as the task that it gave the CPU.
pub trait Counts {
    fn count(self) -> u64;
}

impl Counts for () {
    fn count(self) -> u64 {
        1
    }
}

impl Counts for bool {
    fn count(self) -> u64 {
        self as u64
    }
}

impl Counts for u64 {
    fn count(self) -> u64 {
        self
    }
}

impl Counts for Token {
    fn count(self) -> u64 {
        self.0 as u64
    }
}

impl Counts for TaskId {
    fn count(self) -> u64 {
        self.to_raw().count()
    }
}

impl<A: Counts> Counts for Option<A> {
    fn count(self) -> u64 {
        match self {
            Some(a) => a.count(),
            None => NONE,
        }
    }
}

impl Counts for Decision {
    fn count(self) -> u64 {
        match self {
            Decision::Stay => NONE,
            Decision::Switch { to, .. } => to.count(),
        }
    }
}

impl<A: Counts> Counts for Result<A, Refusal> {
    fn count(self) -> u64 {
        match self {
            Ok(a) => a.count(),
            Err(_) => REFUSED,
        }
    }
}

// The sum is turned by a bit first, so that the order of answers counts too.
pub fn added<A: Counts>(sum: u64, a: Result<A, Refusal>) -> u64 {
    sum.rotate_left(1).wrapping_add(a.count())
}

// Adds what a call by value answered, and hands on the table that it handed back.
pub fn take<T, A: Counts>(sum: &mut u64, done: Answered<T, A>) -> T {
    *sum = added(*sum, done.answer);
    done.table
}

// Whom a switch gave the CPU.
pub fn runs(a: Result<Decision, Refusal>) -> TaskId {
    match a {
        Ok(Decision::Switch { to, .. }) => to,
        _ => TaskId::IDLE,
    }
}
