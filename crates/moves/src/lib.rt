// The calls that change a task table, but stealing and switching, for callers that know the table to be sound. It is lent, and changed
// where it lies.
#![tactic(auto)]

ghost use Rattle.std.specs.Prelude.{◌≡◌, ◌<◌};
ghost use Rattle.answers.specs.Answers.{ack_reply, told_reply, named_reply};
ghost use Rattle.model.specs.Model.{CPUS, tenant};
ghost use Rattle.model.specs.Steps.{claimed, start_step, start_cpu_step, admit_step, mark_step, wake_step, collect_step};
ghost use Rattle.memory.specs.View.{view, Rep, Sound};
ghost use Rattle.memory.specs.Lent.{lent, Stays, DoesLent};

use answers::Refusal;
use ids::TaskId;
use memory::TasksMut;

// A slot becomes the idle task of a CPU, which is running already, so it is not queued.
fn claim(t: &mut TasksMut, cpu: u8, i: usize) -> TaskId
    requires rep { Rep (lent t.old) }
    requires cpu_bound { cpu < CPUS }
    requires i_lt_n { i < t.old.small.now.n }
    ensures { Stays t.old t.new × Rep (lent t.new) × (view (lent t.new) ≡ claimed (view (lent t.old)) cpu i) × (result ≡ tenant (view (lent t.old)) i) }
{
    let c = cpu as usize;
    let id = TaskId {
        slot: i as u16,
        epoch: t.epochs[i],
    };
    t.states[i] = memory::RUNNING;
    t.homes[i] = cpu;
    t.marks[i] = 0; // an idle is never stolen
    t.small.currents[c] = id;
    t.small.idles[c] = id;
    t.small.peak = scans::peak_with(t.states, t.small.n, t.small.peak);
    id
}

// Slot 0 becomes the idle task of CPU 0.
pub fn start_in(t: &mut TasksMut) -> Result<(), Refusal>
    requires { Sound (lent t.old) }
    ensures { DoesLent t.old t.new (ack_reply result) start_step }
{
    if t.states[0] != memory::EMPTY {
        return Err(Refusal::Again);
    }
    claim(t, 0, 0);
    Ok(())
}

// The lowest free slot becomes the idle task of another CPU.
pub fn start_cpu_in(t: &mut TasksMut, cpu: u8) -> Result<Option<TaskId>, Refusal>
    requires sound { Sound (lent t.old) }
    requires cpu_nonzero { 0 < cpu }
    requires cpu_bound { cpu < CPUS }
    ensures { DoesLent t.old t.new (named_reply result) (λ m. start_cpu_step m cpu) }
{
    if t.states[0] == memory::EMPTY {
        return Err(Refusal::NotStarted);
    }
    let idle = t.small.idles[cpu as usize];
    if idle != TaskId::IDLE {
        return Ok(Some(idle));
    }
    let at = t.small.parked_id.slot as usize;
    let Some(i) = scans::free_slot(t.states, t.small.n, t.small.parked, at) else {
        return Ok(None);
    };
    Ok(Some(claim(t, cpu, i)))
}

// A new task, Ready at the tail of a CPU's queue.
pub fn admit_on_in(t: &mut TasksMut, cpu: u8) -> Result<Option<TaskId>, Refusal>
    requires { Sound (lent t.old) }
    ensures { DoesLent t.old t.new (named_reply result) (λ m. admit_step m cpu) }
{
    if t.states[0] == memory::EMPTY {
        return Err(Refusal::NotStarted);
    }
    let c = cpu as usize;
    if memory::CPUS <= c {
        return Ok(None);
    }
    let n = t.small.n;
    let at = t.small.parked_id.slot as usize;
    let Some(i) = scans::free_slot(t.states, n, t.small.parked, at) else {
        return Ok(None);
    };
    let id = TaskId {
        slot: i as u16,
        epoch: t.epochs[i],
    };
    let to = memory::spot(c, n, t.small.heads[c] + t.small.lens[c]);
    t.states[i] = memory::READY;
    t.homes[i] = cpu;
    t.marks[i] = 0;
    t.ring_slots[to] = id.slot;
    t.ring_epochs[to] = id.epoch;
    t.small.lens[c] += 1;
    t.small.peak = scans::peak_with(t.states, n, t.small.peak);
    Ok(Some(id))
}

// Whether other CPUs may steal the task.
pub fn set_stealeable_in(t: &mut TasksMut, id: TaskId, mark: bool) -> Result<bool, Refusal>
    requires { Sound (lent t.old) }
    ensures { DoesLent t.old t.new (told_reply result) (λ m. mark_step m id mark) }
{
    if t.states[0] == memory::EMPTY {
        return Err(Refusal::NotStarted);
    }
    if !scans::known(t.epochs, t.small.n, id) || scans::is_idle(t.small.idles, id) {
        return Ok(false);
    }
    t.marks[id.slot as usize] = memory::flag(mark);
    Ok(true)
}

// A Blocked task is Ready again, at the tail at its home.
pub fn wake_in(t: &mut TasksMut, id: TaskId) -> Result<bool, Refusal>
    requires { Sound (lent t.old) }
    ensures { DoesLent t.old t.new (told_reply result) (λ m. wake_step m id) }
{
    if t.states[0] == memory::EMPTY {
        return Err(Refusal::NotStarted);
    }
    let n = t.small.n;
    let i = id.slot as usize;
    if !scans::known(t.epochs, n, id) || t.states[i] != memory::BLOCKED {
        return Ok(false);
    }
    let c = t.homes[i] as usize;
    let to = memory::spot(c, n, t.small.heads[c] + t.small.lens[c]);
    t.states[i] = memory::READY;
    t.ring_slots[to] = id.slot;
    t.ring_epochs[to] = id.epoch;
    t.small.lens[c] += 1;
    Ok(true)
}

// Takes the parked id, whose stack the caller may now free.
pub fn collect_in(t: &mut TasksMut) -> Result<Option<TaskId>, Refusal>
    requires { Sound (lent t.old) }
    ensures { DoesLent t.old t.new (named_reply result) collect_step }
{
    if t.states[0] == memory::EMPTY {
        return Err(Refusal::NotStarted);
    }
    if t.small.parked == 0 {
        return Ok(None);
    }
    t.small.parked = 0;
    Ok(Some(t.small.parked_id))
}
