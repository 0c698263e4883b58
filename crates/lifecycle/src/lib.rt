// What a supervisor may do to a task, from two facts about it: whether it is an idle, and its state, if its id is known.
#![tactic(auto)]

ghost use Rattle.std.specs.Prelude.{◌≡◌, option_map};
ghost use Rattle.answers.specs.Answers.{state_no};
ghost use Rattle.lifecycle.specs.Verdicts.{reap_of, force_of, cancel_of, reap_verdict, force_verdict, cancel_verdict};

use answers::State;

#[derive(Clone, Copy, Debug, PartialEq, Eq, Hash)]
pub enum ReapError {
    Idle,
    BadId,
    NotBlocked,
}

#[derive(Clone, Copy, Debug, PartialEq, Eq, Hash)]
pub enum ForceError {
    Idle,
    BadId,
    Empty,
}

// How a task is forced to end: it is flagged, and its wait is cancelled or its CPU is told.
#[derive(Clone, Copy, Debug, PartialEq, Eq, Hash)]
pub enum Forced {
    FlagAndCancel,
    FlagAndNudge,
}

#[derive(Clone, Copy, Debug, PartialEq, Eq, Hash)]
pub enum CancelVerdict {
    MarkAndWake,
    Refuse,
}

// Ends a task that waits: `Ok` cancels its wait. It asks whether the task is Blocked, so a slot with no task is just not Blocked.
pub fn reap(is_idle: bool, target: Option<State>) -> Result<(), ReapError>
    ensures { reap_verdict result ≡ reap_of is_idle (option_map state_no target) }
{
    if is_idle {
        return Err(ReapError::Idle);
    }
    match target {
        None => Err(ReapError::BadId),
        Some(State::Blocked) => Ok(()),
        Some(State::Empty | State::Ready | State::Running) => Err(ReapError::NotBlocked),
    }
}

// Ends a task whatever it does. It asks about the slot, so one with no task is a refusal of its own.
pub fn force(is_idle: bool, target: Option<State>) -> Result<Forced, ForceError>
    ensures { force_verdict result ≡ force_of is_idle (option_map state_no target) }
{
    if is_idle {
        return Err(ForceError::Idle);
    }
    match target {
        None => Err(ForceError::BadId),
        Some(State::Empty) => Err(ForceError::Empty),
        Some(State::Blocked) => Ok(Forced::FlagAndCancel),
        Some(State::Ready | State::Running) => Ok(Forced::FlagAndNudge),
    }
}

// Ends a wait, but not the task. An idle never blocks, so this asks for no flag.
pub fn cancel(target: Option<State>) -> CancelVerdict
    ensures { cancel_verdict result ≡ cancel_of (option_map state_no target) }
{
    match target {
        Some(State::Blocked) => CancelVerdict::MarkAndWake,
        Some(State::Empty | State::Ready | State::Running) | None => CancelVerdict::Refuse,
    }
}
