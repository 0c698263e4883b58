// Readings of a table's arrays, lent: numbers in, numbers out, so that no call copies a table to look at it.
#![tactic(auto)]

ghost use Rattle.std.specs.Prelude.{◌≡◌, ℕ, ◌≤◌, ◌<◌, max, unwrap_or, IfSome};
ghost use Rattle.memory.specs.Parts.{known_in, idle_in, stealeable_in, free_in, occupied_in, blocked_in};
ghost use Rattle.scans.specs.Slots.{LowestEmpty};

use ids::TaskId;

// Whether an id names the tenant that its slot has now.
pub fn known(epochs: &[u16; 64], n: usize, id: TaskId) -> bool
    requires { n ≤ 64 }
    ensures { result ≡ known_in epochs.now n id }
{
    let s = id.slot as usize;
    s < n && epochs[s] == id.epoch
}

// Whether an id is that of a CPU's idle task.
pub fn is_idle(idles: [TaskId; 2], id: TaskId) -> bool
    ensures { result ≡ idle_in idles id }
{
    for i in &idles {
        if id == *i {
            return true;
        }
    }
    false
}

// Whether another CPU may have the task: known, marked, and no idle.
pub fn stealeable(
    epochs: &[u16; 64],
    marks: &[u8; 64],
    n: usize,
    idles: [TaskId; 2],
    id: TaskId,
) -> bool
    requires { n ≤ 64 }
    ensures { result ≡ stealeable_in epochs.now marks.now n idles id }
{
    known(epochs, n, id) && marks[id.slot as usize] != 0 && !is_idle(idles, id)
}

// The lowest Empty slot that is not below one.
fn empty_from(states: &[u8; 64], n: usize, from: usize) -> Option<usize>
    requires n_bound { n ≤ 64 }
    requires from_le_n { from ≤ n }
    ensures lowest { LowestEmpty states.now from n (unwrap_or result n) }
    ensures below { IfSome result (λ s. s < n) }
{
    for s in from..n {
        if states[s] == memory::EMPTY {
            return Some(s);
        }
    }
    None
}

// The lowest slot that is Empty and not the parked one. The loop does not ask about the parked one: only if that is
// the lowest does it go on behind it.
pub fn free_slot(states: &[u8; 64], n: usize, parked: u8, at: usize) -> Option<usize>
    requires { n ≤ 64 }
    ensures lowest { unwrap_or result n ≡ free_in states.now parked at n }
    ensures below { IfSome result (λ s. s < n) }
{
    let s = empty_from(states, n, 0)?;
    if parked == 0 || at != s {
        return Some(s);
    }
    empty_from(states, n, s + 1)
}

// How many of the first n slots are not Empty. The compiler counts several slots at once in this loop and the next, but only one in an
// iterator's `filter` and `count`.
pub fn occupied(states: &[u8; 64], n: usize) -> u32
    requires n_bound { n ≤ 64 }
    ensures { result ≡ occupied_in states.now n }
{
    let mut count = 0;
    for s in &states[..n] {
        if *s != memory::EMPTY {
            count += 1;
        }
    }
    count
}

// How many of the first n slots are Blocked.
pub fn blocked(states: &[u8; 64], n: usize) -> u32
    requires n_bound { n ≤ 64 }
    ensures { result ≡ blocked_in states.now n }
{
    let mut count = 0;
    for s in &states[..n] {
        if *s == memory::BLOCKED {
            count += 1;
        }
    }
    count
}

// The peak, once slots are occupied as they are now.
pub fn peak_with(states: &[u8; 64], n: usize, peak: u32) -> u32
    requires n_bound { n ≤ 64 }
    ensures { result ≡ max peak (occupied_in states.now n) }
{
    peak.max(occupied(states, n))
}
