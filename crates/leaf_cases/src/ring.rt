// Ids and the ring at their edges.
use ids::{TaskId, Token};
use runqueue::{RunQueue, Span};
use say::lossy::{self, Say};

// Both ways at both ends of the range.
pub fn packing(rt: &impl Print) {
    say::text(rt, b"id pack");
    for id in [TaskId::new(3, 2), TaskId::new(65535, 65535)] {
        let raw = id.to_raw();
        raw.say(rt);
        TaskId::from_raw(raw).say(rt);
    }
    TaskId::from_raw(Token(65536)).say(rt);
    TaskId::from_raw(Token(65535)).say(rt);
    let idle = TaskId::IDLE;
    idle.to_raw().say(rt);
    idle.slot().say(rt);
    idle.epoch().say(rt);
    say::end(rt)
}

fn put(rt: &impl Print, q: RunQueue, slot: u16, epoch: u16) -> RunQueue {
    lossy::answered(rt, q.enqueue(TaskId::new(slot, epoch)))
}

fn take(rt: &impl Print, q: RunQueue) -> RunQueue {
    lossy::answered(rt, q.dequeue())
}

fn onward(rt: &impl Print, q: RunQueue, who: Option<TaskId>) -> RunQueue {
    lossy::answered(rt, q.after_yield(who))
}

fn tests(rt: &impl Print, q: RunQueue) {
    q.capacity().say(rt);
    q.len().say(rt);
    q.is_empty().say(rt);
    q.is_full().say(rt);
    q.front().say(rt)
}

fn four(rt: &impl Print, q: RunQueue) {
    for index in 0..4 {
        q.ready_at(index).say(rt);
    }
}

// A ring of one: empty, full, and full again for a yield, although the head would leave.
pub fn of_one(rt: &impl Print) {
    say::text(rt, b"ring of 1");
    let q = RunQueue::new(1).table;
    tests(rt, q);
    let q = put(rt, q, 5, 1);
    tests(rt, q);
    let q = put(rt, q, 6, 1);
    let q = onward(rt, q, Some(TaskId::new(6, 1)));
    let q = take(rt, q);
    let q = take(rt, q);
    let q = onward(rt, q, None);
    let q = onward(rt, q, Some(TaskId::new(7, 2)));
    tests(rt, q);
    say::end(rt)
}

// A ring of three whose head goes round.
pub fn of_three(rt: &impl Print) {
    say::text(rt, b"ring of 3");
    let mut q = RunQueue::new(3).table;
    for slot in [1, 2, 3] {
        q = put(rt, q, slot, 0);
    }
    four(rt, q);
    q = take(rt, q);
    for slot in [4, 5] {
        q = put(rt, q, slot, 0);
    }
    four(rt, q);
    q = take(rt, q);
    for slot in [6, 7] {
        q = onward(rt, q, Some(TaskId::new(slot, 9)));
    }
    four(rt, q);
    q = take(rt, q);
    q = take(rt, q);
    tests(rt, q);
    say::end(rt)
}

// The largest ring: one short, full, one too many, and wrapped.
pub fn of_64(rt: &impl Print) {
    say::text(rt, b"ring of 64");
    let mut q = RunQueue::new(64).table;
    for slot in 0..63 {
        q = q.enqueue(TaskId::new(slot, 65535)).table;
    }
    tests(rt, q);
    for slot in [63, 64] {
        q = put(rt, q, slot, 1);
    }
    tests(rt, q);
    q = take(rt, q);
    for slot in [65, 66] {
        q = put(rt, q, slot, 1);
    }
    for index in [62, 63, 64] {
        q.ready_at(index).say(rt);
    }
    q.front().say(rt);
    say::end(rt)
}

// Sizes beside the listed ones, and what is handed back beside BadSize.
pub fn sizes(rt: &impl Print) {
    say::text(rt, b"ours ring sizes");
    for n in [0, 1, 64, 65, usize::MAX] {
        let q = lossy::answered(rt, RunQueue::new(n));
        tests(rt, q);
    }
    say::end(rt)
}

fn numbers(rt: &impl Print, q: RunQueue) {
    q.span.n.say(rt);
    q.span.head.say(rt);
    q.span.len.say(rt)
}

// Each call on a ring with these numbers, and the ring as it came back.
fn damaged(rt: &impl Print, n: usize, head: usize, len: usize) {
    let mut q = RunQueue::new(64).table;
    q.span = Span { n, head, len };
    q.sound().say(rt);
    tests(rt, q);
    q.ready_at(0).say(rt);
    numbers(rt, put(rt, q, 1, 1));
    numbers(rt, take(rt, q));
    numbers(rt, onward(rt, q, Some(TaskId::new(2, 2))))
}

// Each clause of a ring's soundness, on either side.
pub fn broken(rt: &impl Print) {
    say::text(rt, b"ours ring damaged");
    damaged(rt, 0, 0, 0);
    damaged(rt, 65, 0, 0);
    damaged(rt, 4, 4, 0);
    damaged(rt, 4, 3, 5);
    damaged(rt, 4, 3, 4);
    damaged(rt, usize::MAX, usize::MAX, usize::MAX);
    say::end(rt)
}
