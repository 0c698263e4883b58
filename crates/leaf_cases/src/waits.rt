// The wait table at its edges.
use ids::TaskId;
use irqwait::{Cookie, WaitTable, Waiter};
use say::lossy::{self, Say};

fn arm(rt: &impl Print, t: WaitTable, cookie: u32, slot: u16, epoch: u16) -> WaitTable {
    lossy::answered(rt, t.arm(Cookie(cookie), TaskId::new(slot, epoch)))
}

fn disarm(rt: &impl Print, t: WaitTable, slot: u16, epoch: u16) -> WaitTable {
    lossy::answered(rt, t.disarm_task(TaskId::new(slot, epoch)))
}

fn signal(rt: &impl Print, t: WaitTable, cookie: u32) -> WaitTable {
    lossy::answered(rt, t.signal(Cookie(cookie)))
}

fn take(rt: &impl Print, t: WaitTable, slot: u16, epoch: u16) -> WaitTable {
    lossy::answered(rt, t.take_pending(TaskId::new(slot, epoch)))
}

fn pending(rt: &impl Print, t: WaitTable, slot: u16, epoch: u16) {
    t.is_pending(TaskId::new(slot, epoch)).say(rt)
}

// Slots 63 and 64, and no cookie or task twice: the cookie is tested first.
pub fn arming(rt: &impl Print) {
    say::text(rt, b"wait arm");
    let mut t = WaitTable::new();
    let arms = [
        (30, 63, 0),
        (31, 64, 0),
        (31, 65535, 65535),
        (30, 64, 0),
        (31, 3, 0),
        (31, 63, 0),
        (30, 3, 0),
        (30, 63, 0),
        (32, 63, 0),
        (32, 63, 1),
    ];
    for (cookie, slot, epoch) in arms {
        t = arm(rt, t, cookie, slot, epoch);
    }
    t = signal(rt, t, 32);
    pending(rt, t, 63, 1);
    pending(rt, t, 63, 0);
    pending(rt, t, 64, 0);
    take(rt, t, 65535, 65535);
    say::end(rt)
}

// One short, full, and the lowest free place used again: the entry scan meets the older arms in place order.
pub fn filling(rt: &impl Print) {
    say::text(rt, b"wait full");
    let mut t = WaitTable::new();
    for k in 0..6u16 {
        t = arm(rt, t, u32::from(k), k, 0);
    }
    t = arm(rt, t, u32::MAX, 6, 65535);
    for (cookie, slot) in [(7, 7), (8, 8), (7, 0)] {
        t = arm(rt, t, cookie, slot, 0);
    }
    t = signal(rt, t, 3);
    t = disarm(rt, t, 1, 0);
    for (cookie, slot) in [(9, 9), (10, 10), (11, 11), (10, 9), (9, 10)] {
        t = arm(rt, t, cookie, slot, 0);
    }
    t = disarm(rt, t, 50, 0);
    for cookie in [77, u32::MAX] {
        t = signal(rt, t, cookie);
    }
    say::end(rt)
}

// A mark is taken by its own id alone, and a signal for another id of the slot replaces it.
pub fn marking(rt: &impl Print) {
    say::text(rt, b"wait marks");
    let t = arm(rt, WaitTable::new(), 1, 2, 0);
    let t = signal(rt, t, 1);
    let t = take(rt, t, 2, 1);
    pending(rt, t, 2, 0);
    let t = arm(rt, t, 1, 2, 1);
    let t = signal(rt, t, 1);
    let t = take(rt, t, 2, 0);
    pending(rt, t, 2, 1);
    let t = take(rt, t, 2, 1);
    let t = take(rt, t, 2, 1);
    let t = signal(rt, t, 1);
    take(rt, t, 64, 0);
    say::end(rt)
}

fn entry(rt: &impl Print, e: Waiter) {
    e.live.say(rt);
    e.cookie.0.say(rt);
    e.task.say(rt)
}

// Every call on a table, and entries 0 and 1 and mark 5 as they came back.
fn tried(rt: &impl Print, t: WaitTable) {
    t.sound().say(rt);
    let t = arm(rt, t, 1, 1, 1);
    let t = disarm(rt, t, 2, 0);
    let t = signal(rt, t, 7);
    let t = take(rt, t, 6, 0);
    pending(rt, t, 6, 0);
    entry(rt, t.waiters[0]);
    entry(rt, t.waiters[1]);
    t.pending[5].say(rt);
    TaskId::new(t.pending_slots[5], t.pending_epochs[5]).say(rt)
}

fn waiter(live: u8, cookie: u32, slot: u16) -> Waiter {
    Waiter {
        live,
        cookie: Cookie(cookie),
        task: TaskId::new(slot, 0),
    }
}

fn two(a: Waiter, b: Waiter) -> WaitTable {
    let mut t = WaitTable::new();
    t.waiters[0] = a;
    t.waiters[1] = b;
    t
}

// A mark in place 5, for a task of a slot.
fn marked(flag: u8, slot: u16) -> WaitTable {
    let mut t = WaitTable::new();
    t.pending[5] = flag;
    t.pending_slots[5] = slot;
    t
}

// Each clause of a wait table's soundness broken, and a flag of each kind that is neither 0 nor 1.
pub fn broken(rt: &impl Print) {
    say::text(rt, b"ours wait damaged");
    for other in [
        waiter(1, 7, 3),
        waiter(1, 8, 2),
        waiter(1, 8, 64),
        waiter(3, 8, 3),
    ] {
        tried(rt, two(waiter(1, 7, 2), other));
    }
    tried(rt, marked(1, 6));
    tried(rt, marked(2, 5));
    say::end(rt)
}
