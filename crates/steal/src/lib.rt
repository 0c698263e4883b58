// Stealing: a CPU whose queue is empty takes the first stealeable task of its peer's queue.
#![tactic(auto)]

ghost use Rattle.std.specs.Prelude.{◌≡◌, true, ◌≤◌, ◌<◌, get_or};
ghost use Rattle.answers.specs.Answers.{told_reply};
ghost use Rattle.model.specs.Model.{CPUS, started};
ghost use Rattle.model.specs.Switch.{try_steal_step};
ghost use Rattle.memory.specs.View.{view, Sound};
ghost use Rattle.memory.specs.Lent.{lent, Stays, DoesLent};
ghost use Rattle.steps.specs.Stealing.{Scans, Pulls};

use answers::Refusal;
use ids::TaskId;
use memory::TasksMut;

// Looks through a queue from its head, as far as the first stealeable entry, or all the way round. Each entry that is passed goes to
// the tail.
fn scan(t: &mut TasksMut, peer: usize) -> usize
    requires sound { Sound (lent t.old) }
    requires s_value { started (view (lent t.old)) ≡ true }
    requires peer_bound { peer < CPUS }
    ensures { Stays t.old t.new × Scans (lent t.old) peer (lent t.new) result }
{
    let n = t.small.n;
    let idles = t.small.idles;
    let len = t.small.lens[peer];
    let mut head = t.small.heads[peer];
    let mut j = 0;
    let found = loop {
        if len <= j {
            break j;
        }
        let from = memory::spot(peer, n, head);
        let id = TaskId {
            slot: t.ring_slots[from],
            epoch: t.ring_epochs[from],
        };
        if scans::stealeable(t.epochs, t.marks, n, idles, id) {
            break j;
        }
        let to = memory::spot(peer, n, head + len);
        t.ring_slots[to] = id.slot;
        t.ring_epochs[to] = id.epoch;
        head = runqueue::place(n, head + 1);
        j += 1;
    };
    t.small.heads[peer] = head;
    found
}

// A CPU whose queue is empty takes what it may from its peer. Whether a task has moved.
pub fn pull(t: &mut TasksMut, thief: usize) -> bool
    requires sound { Sound (lent t.old) }
    requires s_value { started (view (lent t.old)) ≡ true }
    requires thief_bound { thief < CPUS }
    requires thief_value { get_or t.old.small.now.lens thief 0 ≡ 0 }
    ensures { Stays t.old t.new × Pulls (lent t.old) thief (lent t.new) result }
{
    let peer = (thief + 1) % memory::CPUS;
    let at = scan(t, peer);
    let len = t.small.lens[peer];
    if len <= at {
        return false;
    }
    let n = t.small.n;
    let head = t.small.heads[peer];
    let from = memory::spot(peer, n, head);
    let id = TaskId {
        slot: t.ring_slots[from],
        epoch: t.ring_epochs[from],
    };
    let to = memory::spot(thief, n, t.small.heads[thief]);
    let i = id.slot as usize;
    t.small.heads[peer] = runqueue::place(n, head + 1);
    t.small.lens[peer] = len - 1;
    t.homes[i] = thief as u8;
    t.ring_slots[to] = id.slot;
    t.ring_epochs[to] = id.epoch;
    t.small.lens[thief] = 1;
    true
}

pub fn try_steal_into_in(t: &mut TasksMut, thief: u8) -> Result<bool, Refusal>
    requires { Sound (lent t.old) }
    ensures { DoesLent t.old t.new (told_reply result) (λ m. try_steal_step m thief) }
{
    if t.states[0] == memory::EMPTY {
        return Err(Refusal::NotStarted);
    }
    let c = thief as usize;
    if memory::CPUS <= c || t.small.lens[c] != 0 {
        return Ok(false);
    }
    Ok(pull(t, c))
}
