// Damaged task tables: each clause of soundness broken by itself. Every call has to answer 1 and hand the table back.
use crate::table;
use answers::Answered;
use ids::TaskId;
use memory::Tasks;
use say::lossy::{self, Say};
use switch::Kind;

// Says what a call answers, and more if its table does not come back as it was.
fn kept<A: Say>(rt: &impl Print, t: Tasks, done: Answered<Tasks, A>) {
    let back = lossy::answered(rt, done);
    if back != t {
        say::text(rt, b" changed");
    }
}

fn changes(rt: &impl Print, t: Tasks, id: TaskId) {
    kept(rt, t, tasks::start(t));
    kept(rt, t, tasks::start_cpu1(t));
    kept(rt, t, tasks::admit(t));
    kept(rt, t, tasks::admit_on(t, 1));
    kept(rt, t, tasks::set_stealeable(t, id, true));
    kept(rt, t, tasks::try_steal_into(t, 1));
    kept(rt, t, tasks::wake(t, id));
    kept(rt, t, tasks::collect(t));
    kept(rt, t, tasks::switch(t, Kind::Yield));
    kept(rt, t, tasks::switch_on(t, 1, Kind::Exit))
}

fn reads(rt: &impl Print, t: Tasks, id: TaskId) {
    tasks::current_on(t, 0).say(rt);
    tasks::current(t).say(rt);
    tasks::idle_of(t, 9).say(rt);
    tasks::has_ready_on(t, 9).say(rt);
    tasks::has_ready(t).say(rt);
    tasks::cpu1_started(t).say(rt);
    tasks::state(t, id).say(rt);
    tasks::home_of(t, id).say(rt);
    tasks::live_id(t, 1).say(rt);
    tasks::is_stealeable(t, id).say(rt);
    tasks::can_steal_into(t, 1).say(rt);
    tasks::overwrites(t).say(rt);
    tasks::blocked_count(t).say(rt);
    tasks::block_events(t).say(rt);
    tasks::live_count(t).say(rt);
    tasks::peak_slots(t).say(rt)
}

// A line: its clause, and the test and every call on a table that is damaged.
fn line<F: FnOnce(&mut Tasks)>(rt: &impl Print, clause: &str, mut t: Tasks, damage: F)
    requires { F.IsAlwaysCallable damage }
{
    damage(&mut t);
    let _written = print!(rt; "ours table damaged, {clause}");
    tasks::sound(t).say(rt);
    changes(rt, t, TaskId::IDLE);
    reads(rt, t, TaskId::IDLE);
    say::end(rt)
}

// Fields that are not compared: the table is as sound as it was.
fn unseen<F: FnOnce(&mut Tasks)>(rt: &impl Print, clause: &str, mut t: Tasks, change: F)
    requires { F.IsAlwaysCallable change }
{
    change(&mut t);
    let _written = print!(rt; "ours table untouched, {clause}");
    tasks::sound(t).say(rt);
    say::end(rt)
}

// Both CPUs run their idles, 3/0 and 4/0 are queued, 2/0 is Blocked, 5/0 has ended and is parked.
fn busy(rt: &impl Print) -> Tasks {
    say::text(rt, b"table busy");
    let t = Tasks::new(8).table;
    let t = table::runs(
        rt,
        t,
        b"s000S000A000A000a100A000x000x020x000x030q000q100n000P000B000",
    );
    say::end(rt);
    t
}

// N, heads, lengths, codes and homes.
fn sizes(rt: &impl Print, t: Tasks) {
    line(rt, "n is 0", t, |t| t.small.n = 0);
    line(rt, "n is 65", t, |t| t.small.n = 65);
    line(rt, "head at n", t, |t| t.small.heads[0] = 8);
    line(rt, "length over n", t, |t| t.small.lens[1] = 9);
    line(rt, "state 4", t, |t| t.states[6] = 4);
    line(rt, "home 2", t, |t| t.homes[6] = 2)
}

// The entries of a queue, and which slots are Ready.
fn queues(rt: &impl Print, t: Tasks) {
    line(rt, "entry not known", t, |t| t.ring_epochs[4] = 1);
    line(rt, "entry above n", t, |t| t.ring_slots[4] = 9);
    line(rt, "entry Blocked", t, |t| t.states[3] = 3);
    line(rt, "entry homed elsewhere", t, |t| t.homes[3] = 1);
    line(rt, "entry missing", t, |t| t.small.lens[1] = 0);
    line(rt, "Ready, not queued", t, |t| t.states[6] = 1);
    // A second entry for a slot that is queued already.
    let mut twice = t;
    twice.ring_slots[5] = 3;
    line(rt, "slot twice", twice, |t| t.small.lens[0] = 2)
}

// Which slots are Running.
fn currents(rt: &impl Print, t: Tasks) {
    line(rt, "Running, not current", t, |t| t.states[6] = 2);
    line(rt, "current Ready", t, |t| t.states[0] = 1);
    line(
        rt,
        "current not known",
        t,
        |t| t.small.currents[0].epoch = 1,
    );
    line(rt, "current elsewhere", t, |t| t.small.currents[1].slot = 4)
}

// The idle of CPU 0.
fn idle_zero(rt: &impl Print, t: Tasks) {
    line(rt, "idle 0 elsewhere", t, |t| t.small.idles[0].slot = 3);
    line(
        rt,
        "idle 0 of another epoch",
        t,
        |t| t.small.idles[0].epoch = 1,
    );
    line(rt, "idle 0 homed elsewhere", t, |t| t.homes[0] = 1);
    line(rt, "idle 0 marked", t, |t| t.marks[0] = 1)
}

// The idle of CPU 1.
fn idle_one(rt: &impl Print, t: Tasks) {
    line(rt, "idle 1 Blocked", t, |t| t.small.idles[1].slot = 2);
    line(rt, "idle 1 homed elsewhere", t, |t| t.homes[1] = 0);
    line(rt, "idle 1 marked", t, |t| t.marks[1] = 1);
    line(rt, "idle 1 gone", t, |t| t.small.idles[1].slot = 0)
}

// The parked id, and the peak.
fn parked(rt: &impl Print, t: Tasks) {
    line(rt, "parked Ready", t, |t| t.small.parked_id.slot = 3);
    line(rt, "parked above n", t, |t| t.small.parked_id.slot = 9);
    line(
        rt,
        "parked of this epoch",
        t,
        |t| t.small.parked_id.epoch = 1,
    );
    line(rt, "peak too low", t, |t| t.small.peak = 4);
    line(rt, "peak above n", t, |t| t.small.peak = 9);
    line(
        rt,
        "parked at 0",
        t,
        |t| t.small.parked_id = TaskId::new(0, 255),
    )
}

// Flags that are neither 0 nor 1.
fn flags(rt: &impl Print, t: Tasks) {
    line(rt, "mark byte 2", t, |t| t.marks[3] = 2);
    line(rt, "mark byte 255", t, |t| t.marks[3] = 255);
    line(rt, "parked byte 2", t, |t| t.small.parked = 2)
}

// What is not compared.
fn unused(rt: &impl Print, t: Tasks) {
    unseen(rt, "a mark above n", t, |t| t.marks[8] = 1);
    unseen(rt, "a mark byte 2 above n", t, |t| t.marks[8] = 2);
    unseen(rt, "a state above n", t, |t| t.states[63] = 9);
    unseen(rt, "a place outside the queue", t, |t| t.ring_slots[5] = 9)
}

pub fn started(rt: &impl Print) {
    let t = busy(rt);
    sizes(rt, t);
    queues(rt, t);
    currents(rt, t);
    idle_zero(rt, t);
    idle_one(rt, t);
    parked(rt, t);
    flags(rt, t);
    unused(rt, t)
}

fn fresh_slots(rt: &impl Print, t: Tasks) {
    line(rt, "fresh, an epoch", t, |t| t.epochs[3] = 1);
    line(rt, "fresh, a home", t, |t| t.homes[3] = 1);
    line(rt, "fresh, a mark", t, |t| t.marks[3] = 1);
    line(rt, "fresh, a queue", t, |t| t.small.lens[0] = 1);
    line(rt, "fresh, a current", t, |t| t.small.currents[1].slot = 1)
}

fn fresh_rest(rt: &impl Print, t: Tasks) {
    line(rt, "fresh, an idle", t, |t| t.small.idles[0].epoch = 1);
    line(rt, "fresh, parked", t, |t| t.small.parked = 1);
    line(rt, "fresh, overwrites", t, |t| t.small.overwrites = 1);
    line(rt, "fresh, block events", t, |t| t.small.block_events = 1);
    line(rt, "fresh, peak", t, |t| t.small.peak = 1)
}

pub fn fresh(rt: &impl Print) {
    let t = Tasks::new(4).table;
    fresh_slots(rt, t);
    fresh_rest(rt, t);
    unseen(rt, "where a ring starts", t, |t| t.small.heads[0] = 3)
}
