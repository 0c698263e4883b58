// Deadlines of parked tasks: sixteen entries, which go in and come back as one value.
#![tactic(auto)]

ghost use Rattle.std.specs.Prelude.{◌≡◌, eqb, drop};
ghost use Rattle.std.specs.List.{list_any, position};
ghost use Rattle.lists.specs.Tells.{Tells};
ghost use Rattle.lists.specs.Entries.{free, taken};
ghost use Rattle.answers.specs.Reply.{done};
ghost use Rattle.answers.specs.Answers.{ack_reply, count_reply};
ghost use Rattle.answers.specs.Contract.{Makes, Does, Meets, lent};
ghost use Rattle.parktime.specs.Deadlines.{deadline_of, view, is_for, due, Sound, deadlines};
ghost use Rattle.parktime.specs.Steps.{new_step, arm_step, disarm_step, poll_step};

use answers::{Answered, Refusal};
use ids::TaskId;

pub const MAX_ARMED: usize = 16;

// `live` is a flag in a byte: 0 or 1 in a sound table.
#[repr(C)]
#[derive(Clone, Copy, Debug, PartialEq, Eq, Hash)]
pub struct Entry {
    pub live: u8,
    pub task: TaskId,
    pub deadline: u64,
}

#[repr(C)]
#[derive(Clone, Copy, Debug, PartialEq, Eq)]
pub struct Table {
    pub entries: [Entry; 16],
}

impl Entry {
    pub const EMPTY: Entry = Entry {
        live: 0,
        task: TaskId::IDLE,
        deadline: 0,
    };

    // Whether this is a deadline of that task.
    fn is_for(&self, id: TaskId) -> bool
        ensures { result ≡ taken (is_for id) (deadline_of self.now) }
    {
        self.live != 0 && self.task == id
    }

    // Whether this is a deadline that has come.
    fn is_due(&self, now: u64) -> bool
        ensures { result ≡ taken (due now) (deadline_of self.now) }
    {
        self.live != 0 && self.deadline <= now
    }
}

// Whether one of these, from a place on, is a deadline of that task.
fn any_for(entries: &[Entry; 16], from: usize, id: TaskId) -> bool
    ensures { result ≡ list_any (λ e. taken (is_for id) (deadline_of e)) (drop from entries.now) }
{
    entries.iter().skip(from).any(|e| e.is_for(id))
}

impl Table {
    pub fn new() -> Table
        ensures { Makes deadlines result done new_step }
    {
        Table {
            entries: [Entry::EMPTY; 16],
        }
    }

    // Whether every flag is one, and no task has two deadlines.
    pub fn sound(self) -> bool
        ensures { Tells result (Sound self) }
    {
        self.fits()
    }

    // The test, where the table lies. It is a call of its own: in line with what stands after it, it would cost the caller stack.
    #[inline(never)]
    fn fits(&self) -> bool
        ensures { Tells result (Sound self.now) }
    {
        for (i, e) in self.entries.iter().enumerate() {
            if 1 < e.live {
                return false;
            }
            if e.live != 0 && any_for(&self.entries, i + 1, e.task) {
                return false;
            }
        }
        true
    }

    // The place of the task's deadline.
    fn find(&self, id: TaskId) -> Option<usize>
        ensures { result ≡ position (λ e. taken (is_for id) (deadline_of e)) self.now.entries }
    {
        self.entries.iter().position(|e| e.is_for(id))
    }

    // The lowest free place.
    fn lowest_free(&self) -> Option<usize>
        ensures { result ≡ position (λ e. eqb e.live 0) self.now.entries }
    {
        self.entries.iter().position(|e| e.live == 0)
    }

    // Sets the deadline of a task, in the place of the one that it has.
    pub fn arm(mut self, task: TaskId, deadline: u64) -> Answered<Table, ()>
        ensures { Meets deadlines self result.table (ack_reply result.answer) (arm_step (view self) task deadline) }
    {
        let answer = if self.fits() {
            self.arm_in(task, deadline)
        } else {
            Err(Refusal::BadTable)
        };
        Answered {
            table: self,
            answer,
        }
    }

    pub fn arm_in(&mut self, task: TaskId, deadline: u64) -> Result<(), Refusal>
        requires { Sound self.old }
        ensures { Does deadlines self.old self.new (ack_reply result) (arm_step (view self.old) task deadline) }
    {
        let Some(i) = self.find(task).or_else(|| self.lowest_free()) else {
            return Err(Refusal::Full);
        };
        self.entries[i] = Entry {
            live: 1,
            task,
            deadline,
        };
        Ok(())
    }

    // Drops the deadline of a task, if it has one.
    pub fn disarm(mut self, task: TaskId) -> Answered<Table, ()>
        ensures { Meets deadlines self result.table (ack_reply result.answer) (disarm_step (view self) task) }
    {
        let answer = if self.fits() {
            self.disarm_in(task)
        } else {
            Err(Refusal::BadTable)
        };
        Answered {
            table: self,
            answer,
        }
    }

    pub fn disarm_in(&mut self, task: TaskId) -> Result<(), Refusal>
        requires { Sound self.old }
        ensures { Does deadlines self.old self.new (ack_reply result) (disarm_step (view self.old) task) }
    {
        self.free(task);
        Ok(())
    }

    // Frees every entry of the task, where the table lies; a call of its own, as `fits` is.
    #[inline(never)]
    fn free(&mut self, task: TaskId)
        requires { Sound self.old }
        ensures { Does deadlines self.old self.new done (disarm_step (view self.old) task) }
    {
        for e in self.entries.iter_mut() {
            if e.is_for(task) {
                *e = Entry::EMPTY;
            }
        }
    }

    // Drops every deadline that has come and writes the raw ids of their tasks to the start of out, in entry order.
    pub fn poll(mut self, now: u64, out: &mut [u32]) -> Answered<Table, u64>
        ensures { Meets (lent deadlines) (self, out.old) (result.table, out.new) (count_reply result.answer) (poll_step (view self, out.old) now) }
    {
        let answer = if self.fits() {
            self.poll_in(now, out)
        } else {
            Err(Refusal::BadTable)
        };
        Answered {
            table: self,
            answer,
        }
    }

    pub fn poll_in(&mut self, now: u64, out: &mut [u32]) -> Result<u64, Refusal>
        requires { Sound self.old }
        ensures { Does (lent deadlines) (self.old, out.old) (self.new, out.new) (count_reply result) (poll_step (view self.old, out.old) now) }
    {
        if out.len() < MAX_ARMED {
            return Err(Refusal::ShortOut);
        }
        let mut count = 0;
        for e in self.entries.iter_mut() {
            if e.is_due(now) {
                out[count] = e.task.to_raw().0;
                count += 1;
                *e = Entry::EMPTY;
            }
        }
        Ok(count as u64)
    }
}
