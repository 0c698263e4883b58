// The test of a whole task table, in one pass over the queues and one over the slots. The table is lent, so that a call that
// holds it pays for no copy of it.
#![tactic(auto)]

ghost use Rattle.std.specs.Prelude.{◌≡◌, ℕ, ◌<◌, ◌≤◌, slice_index};
ghost use Rattle.lists.specs.Tells.{Tells};
ghost use Rattle.runqueue.specs.Ring.{Fit};
ghost use Rattle.model.specs.Model.{MOST, CPUS, RUNNING};
ghost use Rattle.memory.specs.View.{Sound};
ghost use Rattle.memory.specs.Lent.{whole, shown};
ghost use Rattle.checks.specs.Walk.{Notes};
ghost use Rattle.checks.specs.Parts.{RingsFit, noted, Homed, Free, entries, QueueFits, queue_notes, QueuesFit, queues_notes, IdleFits, OnFits, CpuFits, cpu_notes, CpusFit, cpus_notes, asked, Misfits, SlotsFit, ParkFits, LiveFits, SlotBlank, CpuBlank, FreshFits, Typed};

use ids::TaskId;
use memory::{Small, Tasks, TasksRef};

// How many states there are, and how many homes: one for each CPU.
const STATES: u8 = 4;

const HOMES: u8 = 2;

// Whether an id is known and homed on a CPU.
fn is_homed(epochs: &[u16; 64], homes: &[u8; 64], n: usize, c: usize, id: TaskId) -> bool
    requires { n ≤ MOST }
    ensures { Tells result (Homed epochs.now homes.now n c id) }
{
    let s = id.slot as usize;
    s < n && epochs[s] == id.epoch && homes[s] as usize == c
}

// Notes the state that a queue or a CPU asks of a slot, if nothing is noted of it.
fn note(
    epochs: &[u16; 64],
    homes: &[u8; 64],
    want: &mut [u8; 64],
    n: usize,
    c: usize,
    id: TaskId,
    state: u8,
) -> bool
    requires { n ≤ MOST }
    ensures { Notes result (Free epochs.now homes.now n c id want.old) (noted state id want.old) want.new }
{
    let s = id.slot as usize;
    if !is_homed(epochs, homes, n, c, id) || want[s] != 0 {
        return false;
    }
    want[s] = state;
    true
}

// Notes the entries of a queue as Ready.
fn queue_fits(t: TasksRef, want: &mut [u8; 64], c: usize) -> bool
    requires fit { Fit t.small.now.n (slice_index t.small.now.heads c) (slice_index t.small.now.lens c) }
    requires c_bound { c < CPUS }
    ensures { Notes result (QueueFits t.entry.epochs.now t.entry.homes.now t.entry.small.now.n c (entries t.entry.ring_slots.now t.entry.ring_epochs.now t.entry.small.now.n t.entry.small.now.heads c) (slice_index t.entry.small.now.lens c) want.old) (queue_notes (entries t.entry.ring_slots.now t.entry.ring_epochs.now t.entry.small.now.n t.entry.small.now.heads c) (slice_index t.entry.small.now.lens c) want.old) want.new }
{
    let n = t.small.n;
    let head = t.small.heads[c];
    for j in 0..t.small.lens[c] {
        let at = memory::spot(c, n, head + j);
        let id = TaskId {
            slot: t.ring_slots[at],
            epoch: t.ring_epochs[at],
        };
        if !note(t.epochs, t.homes, want, n, c, id, memory::READY) {
            return false;
        }
    }
    true
}

fn queues_fit(t: TasksRef, want: &mut [u8; 64]) -> bool
    requires { RingsFit t.small.now.n t.small.now.heads t.small.now.lens }
    ensures { Notes result (QueuesFit t.entry.epochs.now t.entry.homes.now t.entry.small.now.n (entries t.entry.ring_slots.now t.entry.ring_epochs.now t.entry.small.now.n t.entry.small.now.heads) t.entry.small.now.lens CPUS want.old) (queues_notes (entries t.entry.ring_slots.now t.entry.ring_epochs.now t.entry.small.now.n t.entry.small.now.heads) t.entry.small.now.lens CPUS want.old) want.new }
{
    for c in 0..memory::CPUS {
        if !queue_fits(t, want, c) {
            return false;
        }
    }
    true
}

// The idle of a started CPU: that it is its current or in its queue follows from its home and its state.
fn idle_fits(t: TasksRef, c: usize, id: TaskId) -> bool
    requires { t.small.now.n ≤ MOST }
    ensures { Tells result (IdleFits t.entry.states.now t.entry.epochs.now t.entry.homes.now t.entry.marks.now t.entry.small.now.n c id) }
{
    let s = id.slot as usize;
    is_homed(t.epochs, t.homes, t.small.n, c, id)
        && t.marks[s] == 0
        && (t.states[s] == memory::READY || t.states[s] == memory::RUNNING)
}

// Notes the current of a started CPU as Running.
fn on_fits(t: TasksRef, want: &mut [u8; 64], c: usize, current: TaskId, own: TaskId) -> bool
    requires { t.small.now.n ≤ MOST }
    ensures { Notes result (OnFits t.entry.states.now t.entry.epochs.now t.entry.homes.now t.entry.marks.now t.entry.small.now.n c current own want.old) (noted RUNNING current want.old) want.new }
{
    note(
        t.epochs,
        t.homes,
        want,
        t.small.n,
        c,
        current,
        memory::RUNNING,
    ) && idle_fits(t, c, own)
}

fn cpu_fits(t: TasksRef, want: &mut [u8; 64], c: usize, current: TaskId, own: TaskId) -> bool
    requires { t.small.now.n ≤ MOST }
    ensures { Notes result (CpuFits t.entry.states.now t.entry.epochs.now t.entry.homes.now t.entry.marks.now t.entry.small.now.n c current own want.old) (cpu_notes c current own want.old) want.new }
{
    let none = own == TaskId::IDLE;
    if c == 0 {
        none && on_fits(t, want, c, current, own)
    } else if none {
        current == TaskId::IDLE
    } else {
        on_fits(t, want, c, current, own)
    }
}

fn cpus_fit(t: TasksRef, want: &mut [u8; 64]) -> bool
    requires { t.small.now.n ≤ MOST }
    ensures { Notes result (CpusFit t.entry.states.now t.entry.epochs.now t.entry.homes.now t.entry.marks.now t.entry.small.now.n t.entry.small.now.currents t.entry.small.now.idles CPUS want.old) (cpus_notes t.entry.small.now.currents t.entry.small.now.idles CPUS want.old) want.new }
{
    for c in 0..memory::CPUS {
        if !cpu_fits(t, want, c, t.small.currents[c], t.small.idles[c]) {
            return false;
        }
    }
    true
}

// What has to be noted of a slot in a state: of one that is Blocked nothing, as of an Empty one.
fn note_for(state: u8) -> u8
    ensures { result ≡ asked state }
{
    if state == memory::BLOCKED {
        memory::EMPTY
    } else {
        state
    }
}

// How many tests a slot fails.
fn misfits(state: u8, home: u8, mark: u8, note: u8) -> u8
    ensures { Misfits state home mark note result }
{
    memory::flag(STATES <= state)
        + memory::flag(HOMES <= home)
        + memory::flag(1 < mark)
        + memory::flag(note_for(state) != note)
}

// How many slots are not Empty, if every slot is as it should be.
fn slots_fit(t: TasksRef, want: &[u8; 64]) -> Option<u8>
    requires { t.small.now.n ≤ MOST }
    ensures { SlotsFit t.entry.states.now t.entry.homes.now t.entry.marks.now want.now t.entry.small.now.n result }
{
    // a count of the slots that fail is quicker than a way out of the loop at the first
    let mut bad: u8 = 0;
    let mut used: u8 = 0;
    for i in 0..t.small.n {
        let state = t.states[i];
        bad += memory::flag(misfits(state, t.homes[i], t.marks[i], want[i]) != 0);
        used += memory::flag(state != memory::EMPTY);
    }
    if bad == 0 { Some(used) } else { None }
}

fn parked_fits(states: &[u8; 64], epochs: &[u16; 64], n: usize, parked: u8, id: TaskId) -> bool
    requires { n ≤ MOST }
    ensures { Tells result (ParkFits states.now epochs.now n parked id) }
{
    let s = id.slot as usize;
    parked == 0
        || parked == 1
            && s != 0
            && s < n
            && states[s] == memory::EMPTY
            && id.epoch.wrapping_add(1) == epochs[s]
}

// A table that is started.
fn is_live(t: TasksRef) -> bool
    requires { RingsFit t.small.now.n t.small.now.heads t.small.now.lens }
    ensures { Tells result (LiveFits t.entry.states.now t.entry.epochs.now t.entry.homes.now t.entry.marks.now t.entry.ring_slots.now t.entry.ring_epochs.now t.entry.small.now) }
{
    let mut want = [0; 64];
    if !queues_fit(t, &mut want) || !cpus_fit(t, &mut want) {
        return false;
    }
    let Some(used) = slots_fit(t, &want) else {
        return false;
    };
    let n = t.small.n;
    let peak = t.small.peak;
    parked_fits(t.states, t.epochs, n, t.small.parked, t.small.parked_id)
        && used as u32 <= peak
        && peak as usize <= n
}

fn slots_blank(t: TasksRef) -> bool
    requires { t.small.now.n ≤ MOST }
    ensures { Tells result ((i : ℕ) → i < t.entry.small.now.n → SlotBlank t.entry.states.now t.entry.epochs.now t.entry.homes.now t.entry.marks.now i) }
{
    (0..t.small.n).all(|i| {
        t.states[i] == memory::EMPTY && t.epochs[i] == 0 && t.homes[i] == 0 && t.marks[i] == 0
    })
}

fn cpus_blank(s: &Small) -> bool
    ensures { Tells result ((c : ℕ) → c < CPUS → CpuBlank s.now.lens s.now.currents s.now.idles c) }
{
    for c in 0..memory::CPUS {
        if s.lens[c] != 0 || s.currents[c] != TaskId::IDLE || s.idles[c] != TaskId::IDLE {
            return false;
        }
    }
    true
}

// A table just made.
fn is_fresh(t: TasksRef) -> bool
    requires { t.small.now.n ≤ MOST }
    ensures { Tells result (FreshFits t.entry.states.now t.entry.epochs.now t.entry.homes.now t.entry.marks.now t.entry.small.now) }
{
    slots_blank(t)
        && cpus_blank(t.small)
        && t.small.parked == 0
        && t.small.overwrites == 0
        && t.small.block_events == 0
        && t.small.peak == 0
}

fn rings_fit(s: &Small) -> bool
    ensures { Tells result (RingsFit s.now.n s.now.heads s.now.lens) }
{
    runqueue::is_listed(s.n) && (0..memory::CPUS).all(|c| s.heads[c] < s.n && s.lens[c] <= s.n)
}

// What the types of a table's parts say: the sizes of the arrays, and that an epoch has 16 bits. A reference that is a field does
// not tell the proof so much, and an array tells the range of its elements where one is read. It compiles to nothing.
fn typed(
    small: Small,
    states: &[u8; 64],
    epochs: &[u16; 64],
    homes: &[u8; 64],
    marks: &[u8; 64],
    ring_slots: &[u16; 128],
    ring_epochs: &[u16; 128],
)
    ensures { Typed (whole states.now epochs.now homes.now marks.now ring_slots.now ring_epochs.now small) }
{
    let _ = epochs[0];
}

pub fn sound_at(t: TasksRef) -> bool
    ensures { Tells result (Sound (shown t.entry)) }
{
    typed(
        *t.small,
        t.states,
        t.epochs,
        t.homes,
        t.marks,
        t.ring_slots,
        t.ring_epochs,
    );
    if !rings_fit(t.small) {
        return false;
    }
    if t.states[0] == memory::EMPTY {
        is_fresh(t)
    } else {
        is_live(t)
    }
}

pub fn sound(t: Tasks) -> bool
    ensures { Tells result (Sound t) }
{
    sound_at(t.show())
}
