// What a table tells, for callers that know it to be sound. The table is lent to be read.
#![tactic(auto)]

ghost use Rattle.std.specs.Prelude.{◌≡◌, ◌<◌};
ghost use Rattle.answers.specs.Answers.{state_no, told_reply, count_reply, named_reply, stated_reply, homed_reply};
ghost use Rattle.model.specs.Model.{STATES};
ghost use Rattle.model.specs.Reads.{current_reply, idle_reply, ready_reply, started_reply, state_reply, home_reply, live_reply, stealeable_reply, can_steal_reply, overwrites_reply, blocked_reply, block_events_reply, live_count_reply, peak_reply};
ghost use Rattle.memory.specs.View.{Sound};
ghost use Rattle.memory.specs.Lent.{shown, ReadsLent};

use answers::{Refusal, State};
use ids::TaskId;
use memory::TasksRef;

pub fn current_on_in(t: TasksRef, cpu: u8) -> Result<Option<TaskId>, Refusal>
    requires { Sound (shown t) }
    ensures { ReadsLent t.entry (named_reply result) (λ m. current_reply m cpu) }
{
    let c = cpu as usize;
    if memory::CPUS <= c {
        return Err(Refusal::BadCpu);
    }
    Ok(Some(t.small.currents[c]))
}

pub fn idle_of_in(t: TasksRef, cpu: u8) -> Result<Option<TaskId>, Refusal>
    requires { Sound (shown t) }
    ensures { ReadsLent t.entry (named_reply result) (λ m. idle_reply m cpu) }
{
    let c = cpu as usize;
    if memory::CPUS <= c {
        return Err(Refusal::BadCpu);
    }
    Ok(Some(t.small.idles[c]))
}

// Whether a task waits for the CPU.
pub fn has_ready_on_in(t: TasksRef, cpu: u8) -> Result<bool, Refusal>
    requires { Sound (shown t) }
    ensures { ReadsLent t.entry (told_reply result) (λ m. ready_reply m cpu) }
{
    let c = cpu as usize;
    if memory::CPUS <= c {
        return Err(Refusal::BadCpu);
    }
    Ok(t.small.lens[c] != 0)
}

pub fn cpu1_started_in(t: TasksRef) -> Result<bool, Refusal>
    requires { Sound (shown t) }
    ensures { ReadsLent t.entry (told_reply result) (λ m. started_reply m 1) }
{
    Ok(t.small.idles[1] != TaskId::IDLE)
}

// The state that a code stands for.
fn named_state(code: u8) -> State
    requires { code < STATES }
    ensures { state_no result ≡ code }
{
    match code {
        memory::EMPTY => State::Empty,
        memory::READY => State::Ready,
        memory::RUNNING => State::Running,
        _ => State::Blocked,
    }
}

pub fn state_in(t: TasksRef, id: TaskId) -> Result<Option<State>, Refusal>
    requires { Sound (shown t) }
    ensures { ReadsLent t.entry (stated_reply result) (λ m. state_reply m id) }
{
    if !scans::known(t.epochs, t.small.n, id) {
        return Ok(None);
    }
    Ok(Some(named_state(t.states[id.slot as usize])))
}

pub fn home_of_in(t: TasksRef, id: TaskId) -> Result<Option<u8>, Refusal>
    requires { Sound (shown t) }
    ensures { ReadsLent t.entry (homed_reply result) (λ m. home_reply m id) }
{
    if !scans::known(t.epochs, t.small.n, id) {
        return Ok(None);
    }
    Ok(Some(t.homes[id.slot as usize]))
}

// The task that a slot has, if any.
pub fn live_id_in(t: TasksRef, slot: usize) -> Result<Option<TaskId>, Refusal>
    requires { Sound (shown t) }
    ensures { ReadsLent t.entry (named_reply result) (λ m. live_reply m slot) }
{
    if t.small.n <= slot || t.states[slot] == memory::EMPTY {
        return Ok(None);
    }
    Ok(Some(TaskId {
        slot: slot as u16,
        epoch: t.epochs[slot],
    }))
}

pub fn is_stealeable_in(t: TasksRef, id: TaskId) -> Result<bool, Refusal>
    requires { Sound (shown t) }
    ensures { ReadsLent t.entry (told_reply result) (λ m. stealeable_reply m id) }
{
    Ok(scans::stealeable(t.epochs, t.marks, t.small.n, t.small.idles, id))
}

// Whether a try to steal would move a task: the same walk, with nothing moved.
pub fn can_steal_into_in(t: TasksRef, thief: u8) -> Result<bool, Refusal>
    requires { Sound (shown t) }
    ensures { ReadsLent t.entry (told_reply result) (λ m. can_steal_reply m thief) }
{
    let c = thief as usize;
    if memory::CPUS <= c || t.small.lens[c] != 0 {
        return Ok(false);
    }
    let peer = (c + 1) % memory::CPUS;
    let head = t.small.heads[peer];
    for j in 0..t.small.lens[peer] {
        let at = memory::spot(peer, t.small.n, head + j);
        let id = TaskId {
            slot: t.ring_slots[at],
            epoch: t.ring_epochs[at],
        };
        if scans::stealeable(t.epochs, t.marks, t.small.n, t.small.idles, id) {
            return Ok(true);
        }
    }
    Ok(false)
}

// How many exits displaced a task that was parked.
pub fn overwrites_in(t: TasksRef) -> Result<u64, Refusal>
    requires { Sound (shown t) }
    ensures { ReadsLent t.entry (count_reply result) overwrites_reply }
{
    Ok(t.small.overwrites as u64)
}

pub fn blocked_count_in(t: TasksRef) -> Result<u64, Refusal>
    requires { Sound (shown t) }
    ensures { ReadsLent t.entry (count_reply result) blocked_reply }
{
    Ok(scans::blocked(t.states, t.small.n) as u64)
}

// How often a task was blocked.
pub fn block_events_in(t: TasksRef) -> Result<u64, Refusal>
    requires { Sound (shown t) }
    ensures { ReadsLent t.entry (count_reply result) block_events_reply }
{
    Ok(t.small.block_events as u64)
}

// How many slots have a task.
pub fn live_count_in(t: TasksRef) -> Result<u64, Refusal>
    requires { Sound (shown t) }
    ensures { ReadsLent t.entry (count_reply result) live_count_reply }
{
    Ok(scans::occupied(t.states, t.small.n) as u64)
}

// The most slots that had a task at one time.
pub fn peak_slots_in(t: TasksRef) -> Result<u64, Refusal>
    requires { Sound (shown t) }
    ensures { ReadsLent t.entry (count_reply result) peak_reply }
{
    Ok(t.small.peak as u64)
}
