// The wake queue at its edges.
use ids::Token;
use say::lossy::{self, Say};
use wake::{Ends, WakeQueue};

fn push(rt: &impl Print, q: WakeQueue, token: u32) -> WakeQueue {
    lossy::answered(rt, q.push(Token(token)))
}

fn pop(rt: &impl Print, q: WakeQueue) -> WakeQueue {
    lossy::answered(rt, q.pop())
}

// A queue of c, of which c - 1 can be held: empty, one short, full, over, wrapped, empty again.
fn one_size(rt: &impl Print, c: usize, hold: u32) {
    let q = WakeQueue::new(c).table;
    q.is_empty().say(rt);
    let mut q = pop(rt, q);
    for token in 1..=hold {
        q = q.push(Token(token)).table;
    }
    for token in [1000, u32::MAX, 1001] {
        q = push(rt, q, token);
    }
    q.drops().say(rt);
    q.is_empty().say(rt);
    q = pop(rt, q);
    q = push(rt, q, 1002);
    for _ in 0..hold {
        q = q.pop().table;
    }
    q = pop(rt, q);
    q = pop(rt, q);
    q.drops().say(rt);
    q.is_empty().say(rt)
}

pub fn every_size(rt: &impl Print) {
    for (c, hold) in [(2, 0), (4, 2), (8, 6), (16, 14), (32, 30), (64, 62)] {
        let _written = print!(rt; "wake of {c}");
        one_size(rt, c, hold);
        say::end(rt);
    }
}

// The counter of drops at its end.
pub fn wrap(rt: &impl Print) {
    say::text(rt, b"wake drops");
    let mut q = WakeQueue::new(2).table;
    q.ends.drops = u32::MAX - 1;
    q = push(rt, q, 1);
    for token in [2, 3, 4] {
        q = push(rt, q, token);
        q.drops().say(rt);
    }
    q = pop(rt, q);
    q.drops().say(rt);
    say::end(rt)
}

// Each size that is listed, with its neighbours.
pub fn sizes(rt: &impl Print) {
    say::text(rt, b"ours wake sizes");
    for c in [
        0, 1, 2, 3, 4, 5, 7, 8, 9, 15, 16, 17, 31, 32, 33, 63, 64, 65, 128,
    ] {
        WakeQueue::new(c).answer.say(rt);
    }
    WakeQueue::new(usize::MAX).answer.say(rt);
    let q = WakeQueue::new(3).table;
    q.ends.c.say(rt);
    q.is_empty().say(rt);
    say::end(rt)
}

fn numbers(rt: &impl Print, q: WakeQueue) {
    q.ends.c.say(rt);
    q.ends.head.say(rt);
    q.ends.tail.say(rt);
    q.ends.drops.say(rt)
}

// Each call on a queue with these numbers, and the queue as it came back.
fn damaged(rt: &impl Print, c: usize, head: usize, tail: usize) {
    let mut q = WakeQueue::new(64).table;
    q.ends = Ends {
        c,
        head,
        tail,
        drops: 9,
    };
    q.sound().say(rt);
    q.drops().say(rt);
    q.is_empty().say(rt);
    numbers(rt, push(rt, q, 1));
    numbers(rt, pop(rt, q))
}

// Each clause of a wake queue's soundness, on either side.
pub fn broken(rt: &impl Print) {
    say::text(rt, b"ours wake damaged");
    damaged(rt, 3, 0, 0);
    damaged(rt, 0, 0, 0);
    damaged(rt, 4, 4, 0);
    damaged(rt, 4, 0, 4);
    damaged(rt, 4, 3, 3);
    damaged(rt, usize::MAX, 0, 0);
    say::end(rt)
}
