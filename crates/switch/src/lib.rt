// Switching: the current task of a CPU leaves, and the head of the CPU's queue runs.
#![tactic(auto)]

ghost use Rattle.std.specs.Prelude.{◌≡◌, ◌<◌};
ghost use Rattle.model.specs.Model.{CPUS, capped};
ghost use Rattle.model.specs.Switch.{is_yield, switch_step};
ghost use Rattle.memory.specs.View.{Sound};
ghost use Rattle.memory.specs.Lent.{lent, Stays, DoesLent};
ghost use Rattle.steps.specs.Switching.{Begun, Going, Pulled, Left};
ghost use Rattle.switch.specs.Decisions.{kind_of, decided, decision_reply};

use answers::{Refusal, Says};
use ids::TaskId;
use memory::TasksMut;

// Why the current task gives up the CPU.
#[derive(Clone, Copy, Debug, PartialEq, Eq, Hash)]
pub enum Kind {
    Yield,
    Preempt,
    Block,
    Exit,
}

// What the caller does: go on with the current task, or switch from it to another, and free a stack, if one is named.
#[derive(Clone, Copy, Debug, PartialEq, Eq, Hash)]
pub enum Decision {
    Stay,
    Switch {
        from: TaskId,
        to: TaskId,
        release: Option<TaskId>,
    },
}

impl Says for Decision {
    ghost says = { decided };
}

fn is_yield(kind: Kind) -> bool
    ensures { result ≡ is_yield (kind_of kind) }
{
    matches!(kind, Kind::Yield)
}

// One more, but no more than the counter holds.
fn raised(v: u32) -> u32
    ensures { result ≡ capped v }
{
    v.saturating_add(1)
}

// An idle CPU with an empty queue tries to steal first, whatever the kind of the switch.
fn steal_first(t: &mut TasksMut, c: usize)
    requires { Begun (lent t.old) c }
    ensures { Stays t.old t.new × Pulled (lent t.old) c (lent t.new) }
{
    let current = t.small.currents[c];
    let idle = t.small.idles[c];
    if current == idle && t.small.lens[c] == 0 {
        steal::pull(t, c);
    }
}

// The current task leaves: to the tail, or it waits, or it is gone from its slot.
fn leave(t: &mut TasksMut, c: usize, kind: Kind)
    requires low { c < CPUS }
    requires going { Going (lent t.old) c (kind_of kind) }
    ensures { Stays t.old t.new × Left (lent t.old) c (kind_of kind) (lent t.new) }
{
    let from = t.small.currents[c];
    let f = from.slot as usize;
    match kind {
        Kind::Yield | Kind::Preempt => {
            let len = t.small.lens[c];
            let to = memory::spot(c, t.small.n, t.small.heads[c] + len);
            t.states[f] = memory::READY;
            t.ring_slots[to] = from.slot;
            t.ring_epochs[to] = from.epoch;
            t.small.lens[c] = len + 1;
        }
        Kind::Block => {
            t.states[f] = memory::BLOCKED;
            t.small.block_events = raised(t.small.block_events);
        }
        Kind::Exit => {
            t.states[f] = memory::EMPTY;
            t.epochs[f] = t.epochs[f].wrapping_add(1);
        }
    }
}

pub fn switch_on_in(t: &mut TasksMut, cpu: u8, kind: Kind) -> Result<Decision, Refusal>
    requires { Sound (lent t.old) }
    ensures { DoesLent t.old t.new (decision_reply result) (λ m. switch_step m cpu (kind_of kind)) }
{
    if t.states[0] == memory::EMPTY {
        return Err(Refusal::NotStarted);
    }
    let c = cpu as usize;
    if memory::CPUS <= c {
        return Ok(Decision::Stay);
    }
    let idle = t.small.idles[c];
    if c != 0 && idle == TaskId::IDLE {
        return Err(Refusal::CpuOff);
    }
    let n = t.small.n;
    let from = t.small.currents[c];
    steal_first(t, c);
    // Idle gives way to a yield alone.
    if from == idle && !is_yield(kind) {
        return Ok(Decision::Stay);
    }
    leave(t, c, kind);
    // The head runs.
    let head = t.small.heads[c];
    let at = memory::spot(c, n, head);
    let to = TaskId {
        slot: t.ring_slots[at],
        epoch: t.ring_epochs[at],
    };
    let g = to.slot as usize;
    t.states[g] = memory::RUNNING;
    t.small.heads[c] = runqueue::place(n, head + 1);
    t.small.lens[c] -= 1;
    t.small.currents[c] = to;
    if to == from {
        return Ok(Decision::Stay);
    }
    let switch = Decision::Switch {
        from,
        to,
        release: None,
    };
    let Kind::Exit = kind else {
        return Ok(switch);
    };
    // A leaver that ended is parked until its stack is collected; one that it displaces is named for release.
    let was = t.small.parked;
    let old = t.small.parked_id;
    t.small.parked = 1;
    t.small.parked_id = from;
    if was == 0 {
        return Ok(switch);
    }
    t.small.overwrites = raised(t.small.overwrites);
    Ok(Decision::Switch {
        from,
        to,
        release: Some(old),
    })
}
