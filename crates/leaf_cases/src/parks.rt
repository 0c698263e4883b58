// The deadlines at their edges.
use ids::{TaskId, Token};
use parktime::{Entry, Table};
use say::lossy::{self, Say};

fn arm(rt: &impl Print, t: Table, slot: u16, epoch: u16, deadline: u64) -> Table {
    lossy::answered(rt, t.arm(TaskId::new(slot, epoch), deadline))
}

fn disarm(rt: &impl Print, t: Table, slot: u16, epoch: u16) -> Table {
    lossy::answered(rt, t.disarm(TaskId::new(slot, epoch)))
}

// The count, and then the first three places of an output of seventeen.
fn poll(rt: &impl Print, t: Table, now: u64) -> Table {
    let mut out = [9; 17];
    let t = lossy::answered(rt, t.poll(now, &mut out));
    for raw in &out[..3] {
        TaskId::from_raw(Token(*raw)).say(rt);
    }
    t
}

// A deadline that was, is and will be; ids of any slot and epoch; `now` goes back.
pub fn polling(rt: &impl Print) {
    say::text(rt, b"park poll");
    let t = poll(rt, Table::new(), u64::MAX);
    let mut t = arm(rt, t, 1, 0, 100);
    for now in [99, 100, 101] {
        t = poll(rt, t, now);
    }
    for (slot, epoch, deadline) in [(65535, 65535, 100), (2, 0, 101), (3, 0, 99), (2, 1, 0)] {
        t = arm(rt, t, slot, epoch, deadline);
    }
    for now in [100, 0, 101] {
        t = poll(rt, t, now);
    }
    t = arm(rt, t, 4, 0, u64::MAX);
    for now in [u64::MAX - 1, u64::MAX] {
        t = poll(rt, t, now);
    }
    say::end(rt)
}

// One short, full, replaced while full, and the lowest free place used again.
pub fn filling(rt: &impl Print) {
    say::text(rt, b"park full");
    let mut t = Table::new();
    for slot in 20..35 {
        t = t.arm(TaskId::new(slot, 7), u64::from(slot)).table;
    }
    for (slot, epoch, deadline) in [(1, 0, 500), (2, 0, 500), (1, 0, 600), (22, 7, 700)] {
        t = arm(rt, t, slot, epoch, deadline);
    }
    for slot in [25, 25, 21] {
        t = disarm(rt, t, slot, 7);
    }
    for (slot, deadline) in [(3, 1), (4, 2), (5, 3)] {
        t = arm(rt, t, slot, 0, deadline);
    }
    for now in [3, 600, 700] {
        t = poll(rt, t, now);
    }
    say::end(rt)
}

// The count, and then the first and the last place of an output of fifteen.
fn polled_15(rt: &impl Print, t: Table) -> Table {
    let mut out = [9; 15];
    let t = lossy::answered(rt, t.poll(100, &mut out));
    Token(out[0]).say(rt);
    Token(out[14]).say(rt);
    t
}

fn polled_16(rt: &impl Print, t: Table) -> Table {
    let mut out = [9; 16];
    let t = lossy::answered(rt, t.poll(100, &mut out));
    Token(out[0]).say(rt);
    Token(out[1]).say(rt);
    Token(out[15]).say(rt);
    t
}

// Outputs of 15, 16 and 17 places.
pub fn outputs(rt: &impl Print) {
    say::text(rt, b"ours park outputs");
    let t = arm(rt, Table::new(), 6, 1, 100);
    let t = polled_15(rt, t);
    let t = polled_16(rt, t);
    let t = arm(rt, t, 6, 2, 100);
    poll(rt, t, 100);
    say::end(rt)
}

fn entry(rt: &impl Print, e: Entry) {
    e.live.say(rt);
    e.task.say(rt);
    e.deadline.say(rt)
}

// Every call on a table, and entries 3 and 15 as they came back.
fn tried(rt: &impl Print, t: Table) {
    t.sound().say(rt);
    let t = arm(rt, t, 1, 1, 1);
    let t = disarm(rt, t, 4, 4);
    let t = poll(rt, t, 100);
    let t = polled_15(rt, t);
    entry(rt, t.entries[3]);
    entry(rt, t.entries[15])
}

fn deadline(live: u8, slot: u16, deadline: u64) -> Entry {
    let task = TaskId::new(slot, 4);
    Entry {
        live,
        task,
        deadline,
    }
}

fn two(a: Entry, b: Entry) -> Table {
    let mut t = Table::new();
    t.entries[3] = a;
    t.entries[15] = b;
    t
}

// A task with two deadlines, and a flag that is neither 0 nor 1.
pub fn broken(rt: &impl Print) {
    say::text(rt, b"ours park damaged");
    tried(rt, two(deadline(1, 4, 10), deadline(1, 4, 11)));
    tried(rt, two(deadline(1, 4, 10), deadline(2, 5, 11)));
    say::end(rt)
}
