// By the calls of the product, each of which tests the table that it is given.
use crate::sums;
use ids::{TaskId, Token};
use irqwait::{Cookie, WaitTable};
use memory::Tasks;
use parktime::Table;
use switch::Kind;
use wake::WakeQueue;

// A task gives up CPU 0 and queues again.
#[unsafe(no_mangle)]
pub extern "C" fn bredumalt_checked_yield(start: Tasks, rounds: u32) -> u64 {
    let mut t = start;
    let mut sum = 0;
    for _ in 0..rounds {
        t = sums::take(&mut sum, tasks::switch_on(t, 0, Kind::Yield));
    }
    sum
}

// Eight calls on two CPUs: one task is blocked and woken, one admitted, one ends and is collected.
#[unsafe(no_mangle)]
pub extern "C" fn bredumalt_checked_mix(start: Tasks, rounds: u32) -> u64 {
    let mut t = start;
    let mut sum = 0;
    for _ in 0..rounds {
        let done = tasks::switch_on(t, 0, Kind::Yield);
        let id = sums::runs(done.answer);
        t = sums::take(&mut sum, done);
        t = sums::take(&mut sum, tasks::admit_on(t, 1));
        t = sums::take(&mut sum, tasks::switch_on(t, 0, Kind::Block));
        t = sums::take(&mut sum, tasks::switch_on(t, 1, Kind::Preempt));
        t = sums::take(&mut sum, tasks::wake(t, id));
        t = sums::take(&mut sum, tasks::switch_on(t, 1, Kind::Yield));
        t = sums::take(&mut sum, tasks::switch_on(t, 1, Kind::Exit));
        t = sums::take(&mut sum, tasks::collect(t));
    }
    sum
}

// The only task but idle blocks, is woken, and runs again when idle yields.
#[unsafe(no_mangle)]
pub extern "C" fn bredumalt_checked_wake(start: Tasks, id: TaskId, rounds: u32) -> u64 {
    let mut t = start;
    let mut sum = 0;
    for _ in 0..rounds {
        t = sums::take(&mut sum, tasks::switch_on(t, 0, Kind::Block));
        t = sums::take(&mut sum, tasks::wake(t, id));
        t = sums::take(&mut sum, tasks::switch_on(t, 0, Kind::Yield));
    }
    sum
}

// A task is admitted, runs, ends and is collected.
#[unsafe(no_mangle)]
pub extern "C" fn bredumalt_checked_admit(start: Tasks, rounds: u32) -> u64 {
    let mut t = start;
    let mut sum = 0;
    for _ in 0..rounds {
        t = sums::take(&mut sum, tasks::admit_on(t, 0));
        t = sums::take(&mut sum, tasks::switch_on(t, 0, Kind::Yield));
        t = sums::take(&mut sum, tasks::switch_on(t, 0, Kind::Exit));
        t = sums::take(&mut sum, tasks::collect(t));
    }
    sum
}

// A task is stolen there and back.
#[unsafe(no_mangle)]
pub extern "C" fn bredumalt_checked_steal(start: Tasks, rounds: u32) -> u64 {
    let mut t = start;
    let mut sum = 0;
    for _ in 0..rounds {
        t = sums::take(&mut sum, tasks::try_steal_into(t, 1));
        t = sums::take(&mut sum, tasks::try_steal_into(t, 0));
    }
    sum
}

// A task waits for an interrupt, which comes, and takes the mark.
#[unsafe(no_mangle)]
pub extern "C" fn bredumalt_checked_signal(
    start: WaitTable,
    cookie: u32,
    id: TaskId,
    rounds: u32,
) -> u64 {
    let mut w = start;
    let mut sum = 0;
    for _ in 0..rounds {
        w = sums::take(&mut sum, w.arm(Cookie(cookie), id));
        w = sums::take(&mut sum, w.signal(Cookie(cookie)));
        w = sums::take(&mut sum, w.take_pending(id));
    }
    sum
}

// A deadline is set; a poll comes before it, and one with it.
#[unsafe(no_mangle)]
pub extern "C" fn bredumalt_checked_poll(
    start: Table,
    id: TaskId,
    before: u64,
    deadline: u64,
    rounds: u32,
) -> u64 {
    let mut d = start;
    let mut out = [0; 16];
    let mut sum = 0;
    for _ in 0..rounds {
        d = sums::take(&mut sum, d.arm(id, deadline));
        d = sums::take(&mut sum, d.poll(before, &mut out));
        d = sums::take(&mut sum, d.poll(deadline, &mut out));
    }
    sum
}

// A token is pushed and popped.
#[unsafe(no_mangle)]
pub extern "C" fn bredumalt_checked_push(start: WakeQueue, token: u32, rounds: u32) -> u64 {
    let mut q = start;
    let mut sum = 0;
    for _ in 0..rounds {
        q = sums::take(&mut sum, q.push(Token(token)));
        q = sums::take(&mut sum, q.pop());
    }
    sum
}
