// The calls of the product on a task table that is lent: each takes any table whatever, tests it, and answers 1 or does what the inner
// call does. The calls by value and the exports stand on these.
#![tactic(auto)]

ghost use Rattle.answers.specs.Answers.{ack_reply, told_reply, count_reply, named_reply, stated_reply, homed_reply};
ghost use Rattle.model.specs.Steps.{start_step, start_cpu_step, admit_step, mark_step, wake_step, collect_step};
ghost use Rattle.model.specs.Switch.{try_steal_step, switch_step};
ghost use Rattle.model.specs.Reads.{current_reply, idle_reply, ready_reply, started_reply, state_reply, home_reply, live_reply, stealeable_reply, can_steal_reply, overwrites_reply, blocked_reply, block_events_reply, live_count_reply, peak_reply};
ghost use Rattle.memory.specs.Lent.{MeetsLent, AnswersLent};
ghost use Rattle.switch.specs.Decisions.{kind_of, decision_reply};

use answers::{Refusal, State};
use ids::TaskId;
use memory::{TasksMut, TasksRef};
use switch::{Decision, Kind};

// CALLS THAT CHANGE THE TABLE

pub fn start_at(t: &mut TasksMut) -> Result<(), Refusal>
    ensures { MeetsLent t.old t.new (ack_reply result) start_step }
{
    if !checks::sound_at(t.show()) {
        return Err(Refusal::BadTable);
    }
    moves::start_in(t)
}

pub fn start_cpu1_at(t: &mut TasksMut) -> Result<Option<TaskId>, Refusal>
    ensures { MeetsLent t.old t.new (named_reply result) (λ m. start_cpu_step m 1) }
{
    if !checks::sound_at(t.show()) {
        return Err(Refusal::BadTable);
    }
    moves::start_cpu_in(t, 1)
}

pub fn admit_on_at(t: &mut TasksMut, cpu: u8) -> Result<Option<TaskId>, Refusal>
    ensures { MeetsLent t.old t.new (named_reply result) (λ m. admit_step m cpu) }
{
    if !checks::sound_at(t.show()) {
        return Err(Refusal::BadTable);
    }
    moves::admit_on_in(t, cpu)
}

pub fn set_stealeable_at(t: &mut TasksMut, id: TaskId, mark: bool) -> Result<bool, Refusal>
    ensures { MeetsLent t.old t.new (told_reply result) (λ m. mark_step m id mark) }
{
    if !checks::sound_at(t.show()) {
        return Err(Refusal::BadTable);
    }
    moves::set_stealeable_in(t, id, mark)
}

pub fn wake_at(t: &mut TasksMut, id: TaskId) -> Result<bool, Refusal>
    ensures { MeetsLent t.old t.new (told_reply result) (λ m. wake_step m id) }
{
    if !checks::sound_at(t.show()) {
        return Err(Refusal::BadTable);
    }
    moves::wake_in(t, id)
}

pub fn collect_at(t: &mut TasksMut) -> Result<Option<TaskId>, Refusal>
    ensures { MeetsLent t.old t.new (named_reply result) collect_step }
{
    if !checks::sound_at(t.show()) {
        return Err(Refusal::BadTable);
    }
    moves::collect_in(t)
}

pub fn try_steal_into_at(t: &mut TasksMut, thief: u8) -> Result<bool, Refusal>
    ensures { MeetsLent t.old t.new (told_reply result) (λ m. try_steal_step m thief) }
{
    if !checks::sound_at(t.show()) {
        return Err(Refusal::BadTable);
    }
    steal::try_steal_into_in(t, thief)
}

pub fn switch_on_at(t: &mut TasksMut, cpu: u8, kind: Kind) -> Result<Decision, Refusal>
    ensures { MeetsLent t.old t.new (decision_reply result) (λ m. switch_step m cpu (kind_of kind)) }
{
    if !checks::sound_at(t.show()) {
        return Err(Refusal::BadTable);
    }
    switch::switch_on_in(t, cpu, kind)
}

// READS

pub fn current_on_at(t: TasksRef, cpu: u8) -> Result<Option<TaskId>, Refusal>
    ensures { AnswersLent t.entry (named_reply result) (λ m. current_reply m cpu) }
{
    if !checks::sound_at(t) {
        return Err(Refusal::BadTable);
    }
    reads::current_on_in(t, cpu)
}

pub fn idle_of_at(t: TasksRef, cpu: u8) -> Result<Option<TaskId>, Refusal>
    ensures { AnswersLent t.entry (named_reply result) (λ m. idle_reply m cpu) }
{
    if !checks::sound_at(t) {
        return Err(Refusal::BadTable);
    }
    reads::idle_of_in(t, cpu)
}

pub fn has_ready_on_at(t: TasksRef, cpu: u8) -> Result<bool, Refusal>
    ensures { AnswersLent t.entry (told_reply result) (λ m. ready_reply m cpu) }
{
    if !checks::sound_at(t) {
        return Err(Refusal::BadTable);
    }
    reads::has_ready_on_in(t, cpu)
}

pub fn cpu1_started_at(t: TasksRef) -> Result<bool, Refusal>
    ensures { AnswersLent t.entry (told_reply result) (λ m. started_reply m 1) }
{
    if !checks::sound_at(t) {
        return Err(Refusal::BadTable);
    }
    reads::cpu1_started_in(t)
}

pub fn state_at(t: TasksRef, id: TaskId) -> Result<Option<State>, Refusal>
    ensures { AnswersLent t.entry (stated_reply result) (λ m. state_reply m id) }
{
    if !checks::sound_at(t) {
        return Err(Refusal::BadTable);
    }
    reads::state_in(t, id)
}

pub fn home_of_at(t: TasksRef, id: TaskId) -> Result<Option<u8>, Refusal>
    ensures { AnswersLent t.entry (homed_reply result) (λ m. home_reply m id) }
{
    if !checks::sound_at(t) {
        return Err(Refusal::BadTable);
    }
    reads::home_of_in(t, id)
}

pub fn live_id_at(t: TasksRef, slot: usize) -> Result<Option<TaskId>, Refusal>
    ensures { AnswersLent t.entry (named_reply result) (λ m. live_reply m slot) }
{
    if !checks::sound_at(t) {
        return Err(Refusal::BadTable);
    }
    reads::live_id_in(t, slot)
}

pub fn is_stealeable_at(t: TasksRef, id: TaskId) -> Result<bool, Refusal>
    ensures { AnswersLent t.entry (told_reply result) (λ m. stealeable_reply m id) }
{
    if !checks::sound_at(t) {
        return Err(Refusal::BadTable);
    }
    reads::is_stealeable_in(t, id)
}

pub fn can_steal_into_at(t: TasksRef, thief: u8) -> Result<bool, Refusal>
    ensures { AnswersLent t.entry (told_reply result) (λ m. can_steal_reply m thief) }
{
    if !checks::sound_at(t) {
        return Err(Refusal::BadTable);
    }
    reads::can_steal_into_in(t, thief)
}

pub fn overwrites_at(t: TasksRef) -> Result<u64, Refusal>
    ensures { AnswersLent t.entry (count_reply result) overwrites_reply }
{
    if !checks::sound_at(t) {
        return Err(Refusal::BadTable);
    }
    reads::overwrites_in(t)
}

pub fn blocked_count_at(t: TasksRef) -> Result<u64, Refusal>
    ensures { AnswersLent t.entry (count_reply result) blocked_reply }
{
    if !checks::sound_at(t) {
        return Err(Refusal::BadTable);
    }
    reads::blocked_count_in(t)
}

pub fn block_events_at(t: TasksRef) -> Result<u64, Refusal>
    ensures { AnswersLent t.entry (count_reply result) block_events_reply }
{
    if !checks::sound_at(t) {
        return Err(Refusal::BadTable);
    }
    reads::block_events_in(t)
}

pub fn live_count_at(t: TasksRef) -> Result<u64, Refusal>
    ensures { AnswersLent t.entry (count_reply result) live_count_reply }
{
    if !checks::sound_at(t) {
        return Err(Refusal::BadTable);
    }
    reads::live_count_in(t)
}

pub fn peak_slots_at(t: TasksRef) -> Result<u64, Refusal>
    ensures { AnswersLent t.entry (count_reply result) peak_reply }
{
    if !checks::sound_at(t) {
        return Err(Refusal::BadTable);
    }
    reads::peak_slots_in(t)
}
