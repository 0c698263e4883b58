// By the inner calls: a table is tested once, before the loop, and lent to each call. One that is not sound gives 0.
use crate::sums;
use ids::{TaskId, Token};
use irqwait::{Cookie, WaitTable};
use memory::{Tasks, lend};
use parktime::Table;
use switch::Kind;
use wake::WakeQueue;

// A task gives up CPU 0 and queues again.
#[unsafe(no_mangle)]
pub extern "C" fn bredumalt_known_yield(start: Tasks, rounds: u32) -> u64 {
    if !checks::sound(start) {
        return 0;
    }
    let mut table = start;
    let t = lend!(table);
    let mut sum = 0;
    for _ in 0..rounds {
        sum = sums::added(sum, switch::switch_on_in(t, 0, Kind::Yield));
    }
    sum
}

// Eight calls on two CPUs: one task is blocked and woken, one admitted, one ends and is collected.
#[unsafe(no_mangle)]
pub extern "C" fn bredumalt_known_mix(start: Tasks, rounds: u32) -> u64 {
    if !checks::sound(start) {
        return 0;
    }
    let mut table = start;
    let t = lend!(table);
    let mut sum = 0;
    for _ in 0..rounds {
        let answer = switch::switch_on_in(t, 0, Kind::Yield);
        let id = sums::runs(answer);
        sum = sums::added(sum, answer);
        sum = sums::added(sum, moves::admit_on_in(t, 1));
        sum = sums::added(sum, switch::switch_on_in(t, 0, Kind::Block));
        sum = sums::added(sum, switch::switch_on_in(t, 1, Kind::Preempt));
        sum = sums::added(sum, moves::wake_in(t, id));
        sum = sums::added(sum, switch::switch_on_in(t, 1, Kind::Yield));
        sum = sums::added(sum, switch::switch_on_in(t, 1, Kind::Exit));
        sum = sums::added(sum, moves::collect_in(t));
    }
    sum
}

// The only task but idle blocks, is woken, and runs again when idle yields.
#[unsafe(no_mangle)]
pub extern "C" fn bredumalt_known_wake(start: Tasks, id: TaskId, rounds: u32) -> u64 {
    if !checks::sound(start) {
        return 0;
    }
    let mut table = start;
    let t = lend!(table);
    let mut sum = 0;
    for _ in 0..rounds {
        sum = sums::added(sum, switch::switch_on_in(t, 0, Kind::Block));
        sum = sums::added(sum, moves::wake_in(t, id));
        sum = sums::added(sum, switch::switch_on_in(t, 0, Kind::Yield));
    }
    sum
}

// A task is admitted, runs, ends and is collected.
#[unsafe(no_mangle)]
pub extern "C" fn bredumalt_known_admit(start: Tasks, rounds: u32) -> u64 {
    if !checks::sound(start) {
        return 0;
    }
    let mut table = start;
    let t = lend!(table);
    let mut sum = 0;
    for _ in 0..rounds {
        sum = sums::added(sum, moves::admit_on_in(t, 0));
        sum = sums::added(sum, switch::switch_on_in(t, 0, Kind::Yield));
        sum = sums::added(sum, switch::switch_on_in(t, 0, Kind::Exit));
        sum = sums::added(sum, moves::collect_in(t));
    }
    sum
}

// A task is stolen there and back.
#[unsafe(no_mangle)]
pub extern "C" fn bredumalt_known_steal(start: Tasks, rounds: u32) -> u64 {
    if !checks::sound(start) {
        return 0;
    }
    let mut table = start;
    let t = lend!(table);
    let mut sum = 0;
    for _ in 0..rounds {
        sum = sums::added(sum, steal::try_steal_into_in(t, 1));
        sum = sums::added(sum, steal::try_steal_into_in(t, 0));
    }
    sum
}

// A task waits for an interrupt, which comes, and takes the mark.
#[unsafe(no_mangle)]
pub extern "C" fn bredumalt_known_signal(
    start: WaitTable,
    cookie: u32,
    id: TaskId,
    rounds: u32,
) -> u64 {
    if !start.sound() {
        return 0;
    }
    let mut w = start;
    let mut sum = 0;
    for _ in 0..rounds {
        let armed = irqwait::arm_in(
            &mut w.pending,
            &mut w.pending_slots,
            &mut w.pending_epochs,
            &mut w.waiters,
            Cookie(cookie),
            id,
        );
        sum = sums::added(sum, armed);
        let woken = irqwait::signal_in(
            &mut w.pending,
            &mut w.pending_slots,
            &mut w.pending_epochs,
            &mut w.waiters,
            Cookie(cookie),
        );
        sum = sums::added(sum, woken);
        let took = irqwait::take_pending_in(
            &mut w.pending,
            &mut w.pending_slots,
            &mut w.pending_epochs,
            &mut w.waiters,
            id,
        );
        sum = sums::added(sum, took);
    }
    sum
}

// A deadline is set; a poll comes before it, and one with it.
#[unsafe(no_mangle)]
pub extern "C" fn bredumalt_known_poll(
    start: Table,
    id: TaskId,
    before: u64,
    deadline: u64,
    rounds: u32,
) -> u64 {
    if !start.sound() {
        return 0;
    }
    let mut d = start;
    let mut out = [0; 16];
    let mut sum = 0;
    for _ in 0..rounds {
        sum = sums::added(sum, d.arm_in(id, deadline));
        sum = sums::added(sum, d.poll_in(before, &mut out));
        sum = sums::added(sum, d.poll_in(deadline, &mut out));
    }
    sum
}

// A token is pushed and popped.
#[unsafe(no_mangle)]
pub extern "C" fn bredumalt_known_push(start: WakeQueue, token: u32, rounds: u32) -> u64 {
    if !start.sound() {
        return 0;
    }
    let WakeQueue {
        mut ends,
        mut tokens,
    } = start;
    let mut sum = 0;
    for _ in 0..rounds {
        sum = sums::added(sum, wake::push_in(&mut tokens, &mut ends, Token(token)));
        sum = sums::added(sum, wake::pop_in(&mut tokens, &mut ends));
    }
    sum
}
