// Answers and operands as numbers: no enum can cross the C boundary.
#![tactic(auto)]

ghost use Rattle.std.specs.Prelude.{◌≡◌, Option, option_map};
ghost use Rattle.lists.specs.Search.{one_if};
ghost use Rattle.ids.specs.declared.Token.{Token};
ghost use Rattle.answers.specs.Reply.{Reply, refused, done, told, number, named, value};
ghost use Rattle.answers.specs.declared.State.{State};
ghost use Rattle.answers.specs.Answers.{refusal_no, state_no, reply};
ghost use Rattle.switch.specs.Decisions.{kind_of, decided};
ghost use Rattle.lifecycle.specs.Verdicts.{reap_verdict, force_verdict, cancel_verdict};
ghost use Rattle.numbers.specs.Numbers.{numbers_of};
ghost use Rattle.numbers.specs.Operands.{kind_named, flag_named, state_named, id_if, verdict_no};

use answers::{Refusal, Says, State};
use ids::{TaskId, Token};
use lifecycle::{CancelVerdict, ForceError, Forced, ReapError};
use switch::{Decision, Kind};

// The number of a refusal, or 0; then which kind of answer it is: 0 nothing, 1 true or false (flag), 2 a number, 3 an id (first) or
// none, 4 a value (number) or none, 5 stay, 6 a switch from `first` to `second`, with `third` to release or none. The flag says
// whether there is one, as a byte: 0 or 1.
#[repr(C)]
#[derive(Clone, Copy, Debug, PartialEq, Eq, Hash)]
pub struct Answer {
    pub refusal: u8,
    pub kind: u8,
    pub flag: u8,
    pub number: u64,
    pub first: TaskId,
    pub second: TaskId,
    pub third: TaskId,
}

// ANSWERS

// An answer of a kind, of which nothing else is used.
fn plain(kind: u8) -> Answer
    ensures { result ≡ record { refusal = 0; kind = kind; flag = 0; number = 0; first = record { slot = 0; epoch = 0 }; second = record { slot = 0; epoch = 0 }; third = record { slot = 0; epoch = 0 } } }
{
    Answer {
        refusal: 0,
        kind,
        flag: 0,
        number: 0,
        first: TaskId::IDLE,
        second: TaskId::IDLE,
        third: TaskId::IDLE,
    }
}

// What a call says where it does not refuse, as numbers.
pub trait Crosses: Says {
    fn numbers(self) -> Answer
        ensures { result ≡ numbers_of (Self.says self) };
}

impl Crosses for () {
    fn numbers(self) -> Answer {
        plain(0)
    }
}

impl Crosses for bool {
    fn numbers(self) -> Answer {
        Answer {
            flag: memory::flag(self),
            ..plain(1)
        }
    }
}

impl Crosses for u64 {
    fn numbers(self) -> Answer {
        Answer {
            number: self,
            ..plain(2)
        }
    }
}

impl Crosses for Option<TaskId> {
    fn numbers(self) -> Answer {
        Answer {
            flag: memory::flag(self.is_some()),
            first: self.unwrap_or(TaskId::IDLE),
            ..plain(3)
        }
    }
}

impl Crosses for Option<u8> {
    fn numbers(self) -> Answer {
        match self {
            Some(v) => Answer {
                flag: 1,
                number: v as u64,
                ..plain(4)
            },
            None => plain(4),
        }
    }
}

// The code of a state.
fn code(s: State) -> u8
    ensures { result ≡ state_no s }
{
    s as u8
}

impl Crosses for Option<State> {
    fn numbers(self) -> Answer {
        match self {
            Some(s) => Some(code(s)).numbers(),
            None => plain(4),
        }
    }
}

impl Crosses for Option<Token> {
    fn numbers(self) -> Answer {
        match self {
            Some(token) => Answer {
                flag: 1,
                number: token.0 as u64,
                ..plain(4)
            },
            None => plain(4),
        }
    }
}

impl Crosses for Decision {
    fn numbers(self) -> Answer {
        match self {
            Decision::Stay => plain(5),
            Decision::Switch { from, to, release } => Answer {
                flag: memory::flag(release.is_some()),
                first: from,
                second: to,
                third: release.unwrap_or(TaskId::IDLE),
                ..plain(6)
            },
        }
    }
}

pub fn refusing(why: Refusal) -> Answer
    ensures { result ≡ numbers_of (refused (refusal_no why)) }
{
    Answer {
        refusal: why.number(),
        ..plain(0)
    }
}

pub fn answer_of<A: Crosses>(a: Result<A, Refusal>) -> Answer
    ensures { result ≡ numbers_of (reply A.says a) }
{
    match a {
        Ok(x) => x.numbers(),
        Err(why) => refusing(why),
    }
}

// OPERANDS

pub fn kind_of(n: u8) -> Option<Kind>
    ensures { option_map kind_of result ≡ kind_named n }
{
    match n {
        0 => Some(Kind::Yield),
        1 => Some(Kind::Preempt),
        2 => Some(Kind::Block),
        3 => Some(Kind::Exit),
        _ => None,
    }
}

pub fn flag_of(n: u8) -> Option<bool>
    ensures { result ≡ flag_named n }
{
    match n {
        0 => Some(false),
        1 => Some(true),
        _ => None,
    }
}

pub fn target_of(n: u8) -> Option<State>
    ensures { option_map state_no result ≡ state_named n }
{
    match n {
        0 => Some(State::Empty),
        1 => Some(State::Ready),
        2 => Some(State::Running),
        3 => Some(State::Blocked),
        _ => None,
    }
}

pub fn requeue_of(flag: bool, id: TaskId) -> Option<TaskId>
    ensures { result ≡ id_if flag id }
{
    flag.then_some(id)
}

// VERDICTS

pub fn from_reap(v: Result<(), ReapError>) -> u8
    ensures { result ≡ verdict_no (reap_verdict v) }
{
    match v {
        Ok(()) => 1,
        Err(ReapError::Idle) => 5,
        Err(ReapError::BadId) => 6,
        Err(ReapError::NotBlocked) => 7,
    }
}

pub fn from_force(v: Result<Forced, ForceError>) -> u8
    ensures { result ≡ verdict_no (force_verdict v) }
{
    match v {
        Ok(Forced::FlagAndCancel) => 2,
        Ok(Forced::FlagAndNudge) => 3,
        Err(ForceError::Idle) => 5,
        Err(ForceError::BadId) => 6,
        Err(ForceError::Empty) => 8,
    }
}

pub fn from_cancel(v: CancelVerdict) -> u8
    ensures { result ≡ verdict_no (cancel_verdict v) }
{
    match v {
        CancelVerdict::MarkAndWake => 4,
        CancelVerdict::Refuse => 0,
    }
}
