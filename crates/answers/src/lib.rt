// What calls answer: a value, or why they refuse. A call that makes or changes a table by value hands the table back beside its answer.
#![tactic(auto)]

ghost use Rattle.std.specs.Prelude.{◌≡◌, option_map};
ghost use Rattle.ids.specs.declared.Token.{Token};
ghost use Rattle.answers.specs.Reply.{Reply, done, told, number, named, value};
ghost use Rattle.answers.specs.Answers.{refusal_no, state_no};

use ids::{TaskId, Token};

// Why a call refuses. The order of the variants is that of their numbers.
#[derive(Clone, Copy, Debug, PartialEq, Eq, Hash)]
pub enum Refusal {
    BadTable,
    BadSize,
    NotStarted,
    Again,
    BadCpu,
    CpuOff,
    ShortOut,
    BadTask,
    CookieBusy,
    TaskBusy,
    Full,
    BadLine,
    TooLong,
}

impl Refusal {
    // The number by which a refusal is known outside.
    pub fn number(self) -> u8
        ensures { result ≡ refusal_no self }
    {
        match self {
            Refusal::BadTable => 1,
            Refusal::BadSize => 2,
            Refusal::NotStarted => 3,
            Refusal::Again => 4,
            Refusal::BadCpu => 5,
            Refusal::CpuOff => 6,
            Refusal::ShortOut => 7,
            Refusal::BadTask => 8,
            Refusal::CookieBusy => 9,
            Refusal::TaskBusy => 10,
            Refusal::Full => 11,
            Refusal::BadLine => 12,
            Refusal::TooLong => 13,
        }
    }
}

// A table, handed back beside what the call answers.
#[derive(Clone, Copy)]
pub struct Answered<T, A> {
    pub table: T,
    pub answer: Result<A, Refusal>,
}

// What a slot of a task table is.
#[derive(Clone, Copy, Debug, PartialEq, Eq, Hash)]
pub enum State {
    Empty,
    Ready,
    Running,
    Blocked,
}

// What an answer of a type says on paper, where the call does not refuse.
pub trait Says {
    ghost says: { Self → Reply };
}

impl Says for () {
    ghost says = { λ _. done };
}

impl Says for bool {
    ghost says = { told };
}

impl Says for u64 {
    ghost says = { number };
}

impl Says for Option<TaskId> {
    ghost says = { named };
}

impl Says for Option<Token> {
    ghost says = { λ o. value (option_map (λ (t : Token). t.0) o) };
}

impl Says for Option<State> {
    ghost says = { λ o. value (option_map state_no o) };
}

impl Says for Option<u8> {
    ghost says = { value };
}
