// The task table in memory: one record, with states, epochs, homes and marks side by side, and beside the arrays the small part. An inner
// call is lent each of them, and stores in place: over the C boundary the arrays come as pointers of their own.
#![tactic(auto)]

ghost use Rattle.std.specs.Prelude.{◌≡◌, ◌+◌, ◌*◌, ◌≤◌, ◌<◌};
ghost use Rattle.lists.specs.Flags.{FLAGS};
ghost use Rattle.lists.specs.Search.{one_if};
ghost use Rattle.answers.specs.Answers.{ack_reply};
ghost use Rattle.answers.specs.Contract.{Makes};
ghost use Rattle.runqueue.specs.Ring.{placed};
ghost use Rattle.model.specs.Model.{CPUS};
ghost use Rattle.model.specs.Steps.{new_step};
ghost use Rattle.memory.specs.Blank.{BlankSmall, Blank};
ghost use Rattle.memory.specs.Lent.{lent, shown, MakesLent};
ghost use Rattle.memory.specs.View.{SPAN, table};

use answers::{Answered, Refusal};
use ids::TaskId;

pub const CPUS: usize = 2;

// The states of a slot.
pub const EMPTY: u8 = 0;

pub const READY: u8 = 1;

pub const RUNNING: u8 = 2;

pub const BLOCKED: u8 = 3;

// The table without its arrays. A flag is a byte: 0 or 1 in a sound table, as a state is one of the four codes.
#[repr(C)]
#[derive(Clone, Copy, PartialEq, Eq)]
pub struct Small {
    pub n: usize,
    pub heads: [usize; 2],
    pub lens: [usize; 2],
    pub currents: [TaskId; 2],
    pub idles: [TaskId; 2],
    pub parked: u8,
    pub parked_id: TaskId,
    pub overwrites: u32,
    pub block_events: u32,
    pub peak: u32,
}

// Of the 64 places for slots only the first n count. The ring of CPU c stands at c * 64, in two arrays: the slots of the ids
// and their epochs.
#[repr(C)]
#[derive(Clone, Copy, PartialEq, Eq)]
pub struct Tasks {
    pub small: Small,
    pub states: [u8; 64],
    pub epochs: [u16; 64],
    pub homes: [u8; 64],
    pub marks: [u8; 64],
    pub ring_slots: [u16; 128],
    pub ring_epochs: [u16; 128],
}

impl Small {
    // What a table holds beside its arrays when it is made.
    fn new(n: usize) -> Small
        ensures { BlankSmall n result }
    {
        Small {
            n,
            heads: [0; 2],
            lens: [0; 2],
            currents: [TaskId::IDLE; 2],
            idles: [TaskId::IDLE; 2],
            parked: 0,
            parked_id: TaskId::IDLE,
            overwrites: 0,
            block_events: 0,
            peak: 0,
        }
    }
}

// A table that is lent to be changed: its small part and its arrays, wherever they lie. Over the C boundary each comes as a pointer of
// its own, so an inner call on a whole `Tasks` would copy the arrays there.
#[derive(Drop)]
pub struct TasksMut<'a> {
    pub small: &'a mut Small,
    pub states: &'a mut [u8; 64],
    pub epochs: &'a mut [u16; 64],
    pub homes: &'a mut [u8; 64],
    pub marks: &'a mut [u8; 64],
    pub ring_slots: &'a mut [u16; 128],
    pub ring_epochs: &'a mut [u16; 128],
}

// The same, lent to be read.
#[derive(Clone, Copy)]
pub struct TasksRef<'a> {
    pub small: &'a Small,
    pub states: &'a [u8; 64],
    pub epochs: &'a [u16; 64],
    pub homes: &'a [u8; 64],
    pub marks: &'a [u8; 64],
    pub ring_slots: &'a [u16; 128],
    pub ring_epochs: &'a [u16; 128],
}

impl TasksMut<'_> {
    // Lent to be read.
    pub fn show(&self) -> TasksRef<'_>
        ensures { shown result ≡ lent self.now }
    {
        TasksRef {
            small: self.small,
            states: self.states,
            epochs: self.epochs,
            homes: self.homes,
            marks: self.marks,
            ring_slots: self.ring_slots,
            ring_epochs: self.ring_epochs,
        }
    }
}

// A table that is a variable or a field, lent. (A function that lent it would have to say of seven references where their stores go.)
#[macro_export]
macro_rules! lend {
    ($t:expr) => {
        &mut $crate::TasksMut {
            small: &mut $t.small,
            states: &mut $t.states,
            epochs: &mut $t.epochs,
            homes: &mut $t.homes,
            marks: &mut $t.marks,
            ring_slots: &mut $t.ring_slots,
            ring_epochs: &mut $t.ring_epochs,
        }
    };
}

// A table is made where its arrays lie; beside BadSize what lay there stays.
pub fn new_at(t: &mut TasksMut, n: usize) -> Result<(), Refusal>
    ensures { MakesLent t.old t.new (ack_reply result) (new_step n) }
{
    if !runqueue::is_listed(n) {
        return Err(Refusal::BadSize);
    }
    *t.states = [0; 64];
    *t.epochs = [0; 64];
    *t.homes = [0; 64];
    *t.marks = [0; 64];
    *t.ring_slots = [0; 128];
    *t.ring_epochs = [0; 128];
    *t.small = Small::new(n);
    Ok(())
}

impl Tasks {
    // The idle task of CPU 0.
    pub const IDLE: TaskId = TaskId::IDLE;

    // A table that is not started; beside BadSize a table of one slot.
    pub fn new(n: usize) -> Answered<Tasks, ()>
        ensures { Makes table result.table (ack_reply result.answer) (new_step n) }
    {
        if !runqueue::is_listed(n) {
            return Answered {
                table: Tasks::blank(1),
                answer: Err(Refusal::BadSize),
            };
        }
        Answered {
            table: Tasks::blank(n),
            answer: Ok(()),
        }
    }

    // Lent to be read.
    pub fn show(&self) -> TasksRef<'_>
        ensures { shown result ≡ self.now }
    {
        TasksRef {
            small: &self.small,
            states: &self.states,
            epochs: &self.epochs,
            homes: &self.homes,
            marks: &self.marks,
            ring_slots: &self.ring_slots,
            ring_epochs: &self.ring_epochs,
        }
    }

    fn blank(n: usize) -> Tasks
        ensures { Blank n result }
    {
        Tasks {
            small: Small::new(n),
            states: [0; 64],
            epochs: [0; 64],
            homes: [0; 64],
            marks: [0; 64],
            ring_slots: [0; 128],
            ring_epochs: [0; 128],
        }
    }
}

// The byte of a flag.
pub fn flag(b: bool) -> u8
    ensures { (result ≡ one_if b) × (result < FLAGS) }
{
    if b { 1 } else { 0 }
}

// The index of a place of a CPU's ring, counted from the ring's start. Nothing else knows where a ring stands.
pub fn spot(cpu: usize, n: usize, x: usize) -> usize
    requires cpu_bound { cpu < CPUS }
    requires n_bound { n ≤ SPAN }
    requires x_bound { x < n + n }
    ensures { (result ≡ cpu * SPAN + placed n x) × (result < CPUS * SPAN) }
{
    cpu * 64 + runqueue::place(n, x)
}
