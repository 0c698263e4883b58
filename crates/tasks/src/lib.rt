// The calls of the product on a task table. Each takes any table whatever: one that is not sound is refused with 1 and handed
// back as given; on one that is, the inner call answers.
#![tactic(auto)]

ghost use Rattle.answers.specs.Answers.{ack_reply, told_reply, count_reply, named_reply, stated_reply, homed_reply};
ghost use Rattle.answers.specs.Contract.{Meets, Answers};
ghost use Rattle.lists.specs.Tells.{Tells};
ghost use Rattle.model.specs.Steps.{start_step, start_cpu_step, admit_step, mark_step, wake_step, collect_step};
ghost use Rattle.model.specs.Switch.{try_steal_step, switch_step};
ghost use Rattle.model.specs.Reads.{current_reply, idle_reply, ready_reply, started_reply, state_reply, home_reply, live_reply, stealeable_reply, can_steal_reply, overwrites_reply, blocked_reply, block_events_reply, live_count_reply, peak_reply};
ghost use Rattle.memory.specs.View.{view, Sound, table};
ghost use Rattle.switch.specs.Decisions.{kind_of, decision_reply};

use answers::{Answered, Refusal, State};
use ids::TaskId;
use memory::{Tasks, lend};
use switch::{Decision, Kind};

// Whether a table is sound: a caller that has seen it may go on with inner calls.
pub fn sound(t: Tasks) -> bool
    ensures { Tells result (Sound t) }
{
    checks::sound(t)
}

// CALLS THAT CHANGE THE TABLE

// Slot 0 becomes the idle task of CPU 0, and runs.
pub fn start(mut t: Tasks) -> Answered<Tasks, ()>
    ensures { Meets table t result.table (ack_reply result.answer) (start_step (view t)) }
{
    let answer = tasks_lent::start_at(lend!(t));
    Answered { table: t, answer }
}

// The lowest free slot becomes the idle task of CPU 1. Called again it names the same task.
pub fn start_cpu1(mut t: Tasks) -> Answered<Tasks, Option<TaskId>>
    ensures { Meets table t result.table (named_reply result.answer) (start_cpu_step (view t) 1) }
{
    let answer = tasks_lent::start_cpu1_at(lend!(t));
    Answered { table: t, answer }
}

// A new task on CPU 0.
pub fn admit(t: Tasks) -> Answered<Tasks, Option<TaskId>>
    ensures { Meets table t result.table (named_reply result.answer) (admit_step (view t) 0) }
{
    admit_on(t, 0)
}

// A new task, Ready at the tail of a CPU's queue.
pub fn admit_on(mut t: Tasks, cpu: u8) -> Answered<Tasks, Option<TaskId>>
    ensures { Meets table t result.table (named_reply result.answer) (admit_step (view t) cpu) }
{
    let answer = tasks_lent::admit_on_at(lend!(t), cpu);
    Answered { table: t, answer }
}

// Whether other CPUs may steal the task.
pub fn set_stealeable(mut t: Tasks, id: TaskId, mark: bool) -> Answered<Tasks, bool>
    ensures { Meets table t result.table (told_reply result.answer) (mark_step (view t) id mark) }
{
    let answer = tasks_lent::set_stealeable_at(lend!(t), id, mark);
    Answered { table: t, answer }
}

// A Blocked task is Ready again, at the tail at its home. An id that is not the slot's tenant now wakes nobody.
pub fn wake(mut t: Tasks, id: TaskId) -> Answered<Tasks, bool>
    ensures { Meets table t result.table (told_reply result.answer) (wake_step (view t) id) }
{
    let answer = tasks_lent::wake_at(lend!(t), id);
    Answered { table: t, answer }
}

// Takes the parked id, whose stack the caller may now free.
pub fn collect(mut t: Tasks) -> Answered<Tasks, Option<TaskId>>
    ensures { Meets table t result.table (named_reply result.answer) (collect_step (view t)) }
{
    let answer = tasks_lent::collect_at(lend!(t));
    Answered { table: t, answer }
}

// A CPU whose queue is empty takes the first task that it may from its peer's.
pub fn try_steal_into(mut t: Tasks, thief: u8) -> Answered<Tasks, bool>
    ensures { Meets table t result.table (told_reply result.answer) (try_steal_step (view t) thief) }
{
    let answer = tasks_lent::try_steal_into_at(lend!(t), thief);
    Answered { table: t, answer }
}

// As `switch_on`, on CPU 0.
pub fn switch(t: Tasks, kind: Kind) -> Answered<Tasks, Decision>
    ensures { Meets table t result.table (decision_reply result.answer) (switch_step (view t) 0 (kind_of kind)) }
{
    switch_on(t, 0, kind)
}

// The current task of a CPU gives it up, and the head of its queue runs.
pub fn switch_on(mut t: Tasks, cpu: u8, kind: Kind) -> Answered<Tasks, Decision>
    ensures { Meets table t result.table (decision_reply result.answer) (switch_step (view t) cpu (kind_of kind)) }
{
    let answer = tasks_lent::switch_on_at(lend!(t), cpu, kind);
    Answered { table: t, answer }
}

// READS

pub fn current_on(t: Tasks, cpu: u8) -> Result<Option<TaskId>, Refusal>
    ensures { Answers table t (named_reply result) (current_reply (view t) cpu) }
{
    tasks_lent::current_on_at(t.show(), cpu)
}

pub fn current(t: Tasks) -> Result<Option<TaskId>, Refusal>
    ensures { Answers table t (named_reply result) (current_reply (view t) 0) }
{
    current_on(t, 0)
}

pub fn idle_of(t: Tasks, cpu: u8) -> Result<Option<TaskId>, Refusal>
    ensures { Answers table t (named_reply result) (idle_reply (view t) cpu) }
{
    tasks_lent::idle_of_at(t.show(), cpu)
}

// Whether a task waits for the CPU.
pub fn has_ready_on(t: Tasks, cpu: u8) -> Result<bool, Refusal>
    ensures { Answers table t (told_reply result) (ready_reply (view t) cpu) }
{
    tasks_lent::has_ready_on_at(t.show(), cpu)
}

pub fn has_ready(t: Tasks) -> Result<bool, Refusal>
    ensures { Answers table t (told_reply result) (ready_reply (view t) 0) }
{
    has_ready_on(t, 0)
}

pub fn cpu1_started(t: Tasks) -> Result<bool, Refusal>
    ensures { Answers table t (told_reply result) (started_reply (view t) 1) }
{
    tasks_lent::cpu1_started_at(t.show())
}

// Of a known id, whatever its slot's state; likewise its home.
pub fn state(t: Tasks, id: TaskId) -> Result<Option<State>, Refusal>
    ensures { Answers table t (stated_reply result) (state_reply (view t) id) }
{
    tasks_lent::state_at(t.show(), id)
}

pub fn home_of(t: Tasks, id: TaskId) -> Result<Option<u8>, Refusal>
    ensures { Answers table t (homed_reply result) (home_reply (view t) id) }
{
    tasks_lent::home_of_at(t.show(), id)
}

// The task that a slot has, if any.
pub fn live_id(t: Tasks, slot: usize) -> Result<Option<TaskId>, Refusal>
    ensures { Answers table t (named_reply result) (live_reply (view t) slot) }
{
    tasks_lent::live_id_at(t.show(), slot)
}

pub fn is_stealeable(t: Tasks, id: TaskId) -> Result<bool, Refusal>
    ensures { Answers table t (told_reply result) (stealeable_reply (view t) id) }
{
    tasks_lent::is_stealeable_at(t.show(), id)
}

// Whether `try_steal_into` would move a task.
pub fn can_steal_into(t: Tasks, thief: u8) -> Result<bool, Refusal>
    ensures { Answers table t (told_reply result) (can_steal_reply (view t) thief) }
{
    tasks_lent::can_steal_into_at(t.show(), thief)
}

// How many exits displaced a task that was parked.
pub fn overwrites(t: Tasks) -> Result<u64, Refusal>
    ensures { Answers table t (count_reply result) (overwrites_reply (view t)) }
{
    tasks_lent::overwrites_at(t.show())
}

pub fn blocked_count(t: Tasks) -> Result<u64, Refusal>
    ensures { Answers table t (count_reply result) (blocked_reply (view t)) }
{
    tasks_lent::blocked_count_at(t.show())
}

// How often a task was blocked.
pub fn block_events(t: Tasks) -> Result<u64, Refusal>
    ensures { Answers table t (count_reply result) (block_events_reply (view t)) }
{
    tasks_lent::block_events_at(t.show())
}

// How many slots have a task, and the most that had one at a time.
pub fn live_count(t: Tasks) -> Result<u64, Refusal>
    ensures { Answers table t (count_reply result) (live_count_reply (view t)) }
{
    tasks_lent::live_count_at(t.show())
}

pub fn peak_slots(t: Tasks) -> Result<u64, Refusal>
    ensures { Answers table t (count_reply result) (peak_reply (view t)) }
{
    tasks_lent::peak_slots_at(t.show())
}
