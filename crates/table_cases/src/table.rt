// The task table by scripts. A call is four bytes: a letter, then up to three numbers, each a byte from '0' on.
use answers::Refusal;
use ids::TaskId;
use memory::Tasks;
use say::lossy::{self, Say};
use switch::{Decision, Kind};

// A line: its name, the size of the fresh table, and the script.
type Line = (&'static str, usize, &'static str);

// The rules one by one.
const RULES: [Line; 27] = [
    // The rows of the bench sheet.
    ("table A2", 4, "s000A000x000x030A000c000A000"),
    ("table A3", 8, "s000A000A000A000A000m301t100q000q100"),
    ("table A4", 8, "s000A000A000A000A000t100q000"),
    ("table A5", 8, "s000S000A000m201x110h200x100"),
    ("table A6", 4, "s000A000A000w000w000w000"),
    ("table A7", 4, "s000A000A000x000x030x030o000"),
    ("table A11", 1, "s000S000A000x000x010x020x030n000P000"),
    // Which ids are known.
    (
        "table wake",
        4,
        "s000A000k100x000x020T100k110B000E000k100k100q000",
    ),
    (
        "table old id",
        4,
        "s000A000x000x030c000A000x000x020k100T100h100k110q000",
    ),
    ("table far id", 2, "s000k900T900h900e900m901l900"),
    ("table empty slot", 2, "s000h100T100m101e100l100l000"),
    // Which slots are free.
    ("table full", 3, "s000A000A000A000S000n000P000"),
    (
        "table parked",
        2,
        "s000A000x000x030A000S000c000c000A000P000",
    ),
    ("table start1", 3, "s0001000S000S0001000C100i100q100n000"),
    // An idle is queued when it yields, is never marked, and steals.
    ("table idle yields", 2, "s000A000x000q000C000r000v000"),
    ("table idle marks", 3, "s000S000m001m101e000e100"),
    (
        "table idle steals",
        8,
        "s000S000A000A000m201m301x120h200h300x130q000q100x110x100x100q000q100",
    ),
    // Where the stolen entry was, and where the others go.
    (
        "table steal first",
        8,
        "s000A000A000A000A000m101j100t100q000q100h100",
    ),
    (
        "table steal last",
        8,
        "s000A000A000A000A000m401t100q000q100",
    ),
    (
        "table steal two",
        8,
        "s000A000A000A000A000m201m401t100q000q100",
    ),
    // Who may steal.
    (
        "table steal busy",
        8,
        "s000A000m101a100j100t100j000q000q100",
    ),
    (
        "table steal own way",
        8,
        "s000S000a100m201t000q000q100j000j100",
    ),
    ("table early thief", 2, "s000A000m101t100q000q100S000"),
    // What each kind of switch does.
    ("table preempt", 4, "s000A000A000x000x010x010x010q000"),
    (
        "table block",
        4,
        "s000A000A000x000x020x020x020E000B000k200k100q000n000",
    ),
    (
        "table release",
        4,
        "s000A000A000A000x000x030x030x030o000c000o000c000P000n000",
    ),
    (
        "table two CPUs",
        8,
        "s000S000a100a100A000x100x120x130x100q000q100C100i100u000h200T210",
    ),
];

// Calls before a start, a second start, CPU 1 before its start, and CPUs that there are not: these get no id and stay.
const REFUSALS: [Line; 4] = [
    (
        "ours table early",
        4,
        "S000A000a200x000x200w000m001t000k000c000C000C100u000i100r000v0001000T000l000j000n000P000o000",
    ),
    ("ours table again", 2, "s000s000A000x000s000q000"),
    (
        "ours table cpu off",
        2,
        "s000x100x130a100x100S000x100x200a200t200j200C200i200r200",
    ),
    ("ours table marks", 2, "s000m101S000M000"),
];

fn kind(k: u8) -> Kind {
    match k {
        0 => Kind::Yield,
        1 => Kind::Preempt,
        2 => Kind::Block,
        _ => Kind::Exit,
    }
}

// Makes a call that changes the table, if the letter is of one.
fn change(rt: &impl Print, t: Tasks, op: u8, a: u8, b: u8, c: u8) -> Tasks {
    let id = TaskId::new(u16::from(a), u16::from(b));
    match op {
        b's' => lossy::answered(rt, tasks::start(t)),
        b'S' => lossy::answered(rt, tasks::start_cpu1(t)),
        b'a' => lossy::answered(rt, tasks::admit_on(t, a)),
        b'A' => lossy::answered(rt, tasks::admit(t)),
        b'x' => lossy::answered(rt, tasks::switch_on(t, a, kind(b))),
        b'w' => lossy::answered(rt, tasks::switch(t, kind(a))),
        b'm' => lossy::answered(rt, tasks::set_stealeable(t, id, c == 1)),
        b't' => lossy::answered(rt, tasks::try_steal_into(t, a)),
        b'k' => lossy::answered(rt, tasks::wake(t, id)),
        b'c' => lossy::answered(rt, tasks::collect(t)),
        _ => t,
    }
}

// Makes a call that reads the table, if the letter is of one, or shows a queue or the marks.
fn read(rt: &impl Print, t: Tasks, op: u8, a: u8, b: u8) {
    let id = TaskId::new(u16::from(a), u16::from(b));
    match op {
        b'C' => tasks::current_on(t, a).say(rt),
        b'u' => tasks::current(t).say(rt),
        b'i' => tasks::idle_of(t, a).say(rt),
        b'r' => tasks::has_ready_on(t, a).say(rt),
        b'v' => tasks::has_ready(t).say(rt),
        b'1' => tasks::cpu1_started(t).say(rt),
        b'j' => tasks::can_steal_into(t, a).say(rt),
        b'l' => tasks::live_id(t, usize::from(a)).say(rt),
        b'T' => tasks::state(t, id).say(rt),
        b'h' => tasks::home_of(t, id).say(rt),
        b'e' => tasks::is_stealeable(t, id).say(rt),
        b'o' => tasks::overwrites(t).say(rt),
        b'B' => tasks::blocked_count(t).say(rt),
        b'E' => tasks::block_events(t).say(rt),
        b'n' => tasks::live_count(t).say(rt),
        b'P' => tasks::peak_slots(t).say(rt),
        b'q' => queue(rt, t, usize::from(a)),
        b'M' => marks(rt, t),
        _ => (),
    }
}

// The queue of a CPU from head to tail.
fn queue(rt: &impl Print, t: Tasks, cpu: usize) {
    say::text(rt, b" [");
    let n = t.small.n;
    if cpu < 2 && n <= 64 {
        let head = t.small.heads[cpu];
        let len = t.small.lens[cpu];
        if head < n && len <= n {
            for j in 0..len {
                let at = memory::spot(cpu, n, head + j);
                TaskId::new(t.ring_slots[at], t.ring_epochs[at]).say(rt);
            }
        }
    }
    say::text(rt, b" ]");
}

fn marks(rt: &impl Print, t: Tasks) {
    for mark in t.marks.iter().take(t.small.n) {
        (*mark != 0).say(rt);
    }
}

fn digit(c: u8) -> u8 {
    c.saturating_sub(b'0')
}

// Runs a script on a table, and hands back what it left.
pub fn runs(rt: &impl Print, mut t: Tasks, script: &[u8]) -> Tasks {
    for call in script.chunks_exact(4) {
        let op = call[0];
        let a = digit(call[1]);
        let b = digit(call[2]);
        let c = digit(call[3]);
        t = change(rt, t, op, a, b, c);
        read(rt, t, op, a, b);
    }
    t
}

fn lines(rt: &impl Print, all: &[Line]) {
    for (name, n, script) in all {
        let _written = print!(rt; "{name}");
        runs(rt, Tasks::new(*n).table, script.as_bytes());
        say::end(rt);
    }
}

pub fn rules(rt: &impl Print) {
    lines(rt, &RULES)
}

pub fn refusals(rt: &impl Print) {
    lines(rt, &REFUSALS);
    say::text(rt, b"ours table sizes");
    for n in [0, 1, 64, 65, usize::MAX] {
        let t = lossy::answered(rt, Tasks::new(n));
        t.small.n.say(rt);
    }
    say::end(rt)
}

// A slot whose tasks end 65,536 times in all: the first id is known again.
pub fn epochs(rt: &impl Print) {
    say::text(rt, b"table epochs");
    let t = Tasks::new(2).table;
    let mut t = runs(rt, t, b"s000A000x000x030c000T100T110");
    for _ in 0..65534 {
        t = cycle(t);
    }
    runs(rt, t, b"A000T100x000x030c000T100A000T100");
    say::end(rt)
}

// A task that is admitted, runs, ends and is collected, without a word.
fn cycle(t: Tasks) -> Tasks {
    let t = tasks::admit(t).table;
    let t = tasks::switch(t, Kind::Yield).table;
    let t = tasks::switch(t, Kind::Exit).table;
    tasks::collect(t).table
}

// Every CPU number, 0 to 255, on a table whose two CPUs run tasks. It says of five calls for how many numbers they answer what they
// should answer above the last CPU: three refuse, an admission gives no id, and a switch stays.
pub fn cpus(rt: &impl Print) {
    say::text(rt, b"ours table cpus");
    let t = Tasks::new(8).table;
    let t = runs(
        rt,
        t,
        b"s000S000A000A000a100a100x000x100C000C100i000i100r000r100",
    );
    how_many(rt, |c| tasks::current_on(t, c) == Err(Refusal::BadCpu));
    how_many(rt, |c| tasks::idle_of(t, c) == Err(Refusal::BadCpu));
    how_many(rt, |c| tasks::has_ready_on(t, c) == Err(Refusal::BadCpu));
    how_many(rt, |c| tasks::admit_on(t, c).answer == Ok(None));
    how_many(rt, |c| {
        tasks::switch_on(t, c, Kind::Exit).answer == Ok(Decision::Stay)
    });
    say::end(rt)
}

// For how many CPU numbers it holds.
fn how_many<F: Fn(u8) -> bool>(rt: &impl Print, holds: F)
    requires { F.IsAlwaysCallable holds }
{
    (0..=u8::MAX).filter(|c| holds(*c)).count().say(rt)
}
