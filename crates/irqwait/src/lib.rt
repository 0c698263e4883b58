// Interrupt waits: which task waits for which interrupt, and which tasks have an interrupt that they have not taken yet.
#![tactic(auto)]

ghost use Rattle.std.specs.Prelude.{◌≡◌, ◌<◌, ◌==◌, ◌||◌, position, drop};
ghost use Rattle.std.specs.List.{list_any};
ghost use Rattle.lists.specs.Tells.{Tells};
ghost use Rattle.lists.specs.Entries.{taken};
ghost use Rattle.answers.specs.Reply.{done};
ghost use Rattle.answers.specs.Answers.{ack_reply, told_reply, named_reply};
ghost use Rattle.answers.specs.Contract.{Makes, Meets, Answers};
ghost use Rattle.irqwait.specs.Waits.{MARKS, waits_of, wait_of, mark_at, view, is_for, has_cookie, is_mark, WaitersFit, MarksFit, Sound, waits};
ghost use Rattle.irqwait.specs.Lent.{whole, lent, DoesLent, MeetsLent, AnswersLent};
ghost use Rattle.irqwait.specs.Steps.{refusal_of, walk, new_step, arm_step, disarm_step, signal_step, take_step, pending_reply};

use answers::{Answered, Refusal};
use ids::TaskId;

pub const MAX_WAITERS: usize = 8;

pub const MAX_TASK_IDS: usize = 64;

// The name of an interrupt. A type of its own, so that no token can be passed where a cookie is asked.
#[repr(C)]
#[derive(Clone, Copy, Debug, PartialEq, Eq, Hash)]
pub struct Cookie(pub u32);

// One task that waits. `live` is a flag in a byte: 0 or 1 in a sound table.
#[repr(C)]
#[derive(Clone, Copy, Debug, PartialEq, Eq, Hash)]
pub struct Waiter {
    pub live: u8,
    pub cookie: Cookie,
    pub task: TaskId,
}

// Who waits, and for each slot whether an interrupt has come for a task of it: a flag, and the whole id, so that the next tenant
// of the slot can't take it. The marks are three arrays of numbers, so that they can be lent.
#[repr(C)]
#[derive(Clone, Copy)]
pub struct WaitTable {
    pub waiters: [Waiter; 8],
    pub pending: [u8; 64],
    pub pending_slots: [u16; 64],
    pub pending_epochs: [u16; 64],
}

impl Waiter {
    pub const FREE: Waiter = Waiter {
        live: 0,
        cookie: Cookie(0),
        task: TaskId::IDLE,
    };

    fn is_for(self, id: TaskId) -> bool
        ensures { result ≡ taken (is_for id) (wait_of self) }
    {
        self.live != 0 && self.task == id
    }

    fn has(self, cookie: Cookie) -> bool
        ensures { result ≡ taken (has_cookie cookie.0) (wait_of self) }
    {
        self.live != 0 && self.cookie == cookie
    }

    // Whether one of the waiters from a place on has the cookie or the task of this one.
    fn clashes(self, waiters: &[Waiter; 8], from: usize) -> bool
        ensures { result ≡ list_any (λ w. taken (has_cookie self.cookie.0) (wait_of w) || taken (is_for self.task) (wait_of w)) (drop from waiters.now) }
    {
        waiters
            .iter()
            .skip(from)
            .any(|e| e.has(self.cookie) || e.is_for(self.task))
    }
}

// Whether the mark of a slot is that of a task.
fn is_marked(pending: &[u8; 64], slots: &[u16; 64], epochs: &[u16; 64], id: TaskId) -> bool
    requires { id.slot < MARKS }
    ensures { result ≡ taken (is_mark id) (mark_at pending.now slots.now epochs.now id.slot) }
{
    let s = id.slot();
    let mark = TaskId {
        slot: slots[s],
        epoch: epochs[s],
    };
    pending[s] != 0 && mark == id
}

// Whether every flag is one, no two of the waiters share a cookie or a task, and each task's slot has a mark.
fn waiters_sound(waiters: &[Waiter; 8]) -> bool
    ensures { Tells result (WaitersFit waiters.now) }
{
    for (i, e) in waiters.iter().enumerate() {
        if 1 < e.live {
            return false;
        }
        if e.live != 0 {
            if MAX_TASK_IDS <= e.task.slot() {
                return false;
            }
            if e.clashes(waiters, i + 1) {
                return false;
            }
        }
    }
    true
}

// Whether every flag is one, and each mark is under its own slot.
fn marks_sound(pending: &[u8; 64], slots: &[u16; 64]) -> bool
    ensures { Tells result (MarksFit pending.now slots.now) }
{
    (0..MAX_TASK_IDS).all(|s| pending[s] <= 1 && (pending[s] == 0 || slots[s] as usize == s))
}

// The place of the waiter for a cookie.
fn find(waiters: &[Waiter; 8], cookie: Cookie) -> Option<usize>
    ensures { result ≡ position (λ w. taken (has_cookie cookie.0) (wait_of w)) waiters.now }
{
    waiters.iter().position(|e| e.has(cookie))
}

// The lowest free place.
fn lowest_free(waiters: &[Waiter; 8]) -> Option<usize>
    ensures { result ≡ position (λ w. w.live == 0) waiters.now }
{
    waiters.iter().position(|e| e.live == 0)
}

// Walks the live entries from 0. At each the cookie is tested before the task, and the first match decides.
fn busy(waiters: &[Waiter; 8], cookie: Cookie, task: TaskId) -> Result<(), Refusal>
    ensures { refusal_of result ≡ walk cookie.0 task (waits_of waiters.now) }
{
    for e in waiters {
        if e.has(cookie) {
            return Err(Refusal::CookieBusy);
        }
        if e.is_for(task) {
            return Err(Refusal::TaskBusy);
        }
    }
    Ok(())
}

// A table is made where it lies.
pub fn new_at(
    pending: &mut [u8; 64],
    slots: &mut [u16; 64],
    epochs: &mut [u16; 64],
    waiters: &mut [Waiter; 8],
)
    ensures { Makes waits (lent pending.exit slots.exit epochs.exit waiters.new) done new_step }
{
    *pending = [0; 64];
    *slots = [0; 64];
    *epochs = [0; 64];
    *waiters = [Waiter::FREE; 8];
}

// INNER CALLS: the table is lent, and the caller knows it to be sound

pub fn arm_in(
    pending: &mut [u8; 64],
    slots: &mut [u16; 64],
    epochs: &mut [u16; 64],
    waiters: &mut [Waiter; 8],
    cookie: Cookie,
    task: TaskId,
) -> Result<(), Refusal>
    requires { Sound (lent pending slots epochs waiters.old) }
    ensures { DoesLent pending slots epochs waiters.old waiters.new (ack_reply result) (λ w. arm_step w cookie.0 task) }
{
    if MAX_TASK_IDS <= task.slot() {
        return Err(Refusal::BadTask);
    }
    if let Err(why) = busy(waiters, cookie, task) {
        return Err(why);
    }
    let Some(i) = lowest_free(waiters) else {
        return Err(Refusal::Full);
    };
    waiters[i] = Waiter {
        live: 1,
        cookie,
        task,
    };
    Ok(())
}

pub fn disarm_task_in(
    pending: &mut [u8; 64],
    slots: &mut [u16; 64],
    epochs: &mut [u16; 64],
    waiters: &mut [Waiter; 8],
    task: TaskId,
) -> Result<(), Refusal>
    requires { Sound (lent pending slots epochs waiters.old) }
    ensures { DoesLent pending slots epochs waiters.old waiters.new (ack_reply result) (λ w. disarm_step w task) }
{
    for e in waiters.iter_mut() {
        if e.is_for(task) {
            *e = Waiter::FREE;
        }
    }
    Ok(())
}

pub fn signal_in(
    pending: &mut [u8; 64],
    slots: &mut [u16; 64],
    epochs: &mut [u16; 64],
    waiters: &mut [Waiter; 8],
    cookie: Cookie,
) -> Result<Option<TaskId>, Refusal>
    requires { Sound (lent pending slots epochs waiters.old) }
    ensures { DoesLent pending slots epochs waiters.old waiters.new (named_reply result) (λ w. signal_step w cookie.0) }
{
    let Some(i) = find(waiters, cookie) else {
        return Ok(None);
    };
    let task = waiters[i].task;
    let s = task.slot();
    waiters[i] = Waiter::FREE;
    pending[s] = 1;
    slots[s] = task.slot;
    epochs[s] = task.epoch;
    Ok(Some(task))
}

pub fn take_pending_in(
    pending: &mut [u8; 64],
    slots: &mut [u16; 64],
    epochs: &mut [u16; 64],
    waiters: &mut [Waiter; 8],
    task: TaskId,
) -> Result<bool, Refusal>
    requires { Sound (lent pending slots epochs waiters.old) }
    ensures { DoesLent pending slots epochs waiters.old waiters.new (told_reply result) (λ w. take_step w task) }
{
    let s = task.slot();
    if s < MAX_TASK_IDS && is_marked(pending, slots, epochs, task) {
        pending[s] = 0;
        Ok(true)
    } else {
        Ok(false)
    }
}

// CALLS OF THE PRODUCT ON A LENT TABLE: the test, then 1 or the inner call

pub fn sound_at(
    pending: &[u8; 64],
    slots: &[u16; 64],
    epochs: &[u16; 64],
    waiters: &[Waiter; 8],
) -> bool
    ensures { Tells result (Sound (whole pending.now slots.now epochs.now waiters.now)) }
{
    waiters_sound(waiters) && marks_sound(pending, slots)
}

pub fn arm_at(
    pending: &mut [u8; 64],
    slots: &mut [u16; 64],
    epochs: &mut [u16; 64],
    waiters: &mut [Waiter; 8],
    cookie: Cookie,
    task: TaskId,
) -> Result<(), Refusal>
    ensures { MeetsLent pending slots epochs waiters.old waiters.new (ack_reply result) (λ w. arm_step w cookie.0 task) }
{
    if sound_at(pending, slots, epochs, waiters) {
        arm_in(pending, slots, epochs, waiters, cookie, task)
    } else {
        Err(Refusal::BadTable)
    }
}

pub fn disarm_task_at(
    pending: &mut [u8; 64],
    slots: &mut [u16; 64],
    epochs: &mut [u16; 64],
    waiters: &mut [Waiter; 8],
    task: TaskId,
) -> Result<(), Refusal>
    ensures { MeetsLent pending slots epochs waiters.old waiters.new (ack_reply result) (λ w. disarm_step w task) }
{
    if sound_at(pending, slots, epochs, waiters) {
        disarm_task_in(pending, slots, epochs, waiters, task)
    } else {
        Err(Refusal::BadTable)
    }
}

pub fn signal_at(
    pending: &mut [u8; 64],
    slots: &mut [u16; 64],
    epochs: &mut [u16; 64],
    waiters: &mut [Waiter; 8],
    cookie: Cookie,
) -> Result<Option<TaskId>, Refusal>
    ensures { MeetsLent pending slots epochs waiters.old waiters.new (named_reply result) (λ w. signal_step w cookie.0) }
{
    if sound_at(pending, slots, epochs, waiters) {
        signal_in(pending, slots, epochs, waiters, cookie)
    } else {
        Err(Refusal::BadTable)
    }
}

pub fn take_pending_at(
    pending: &mut [u8; 64],
    slots: &mut [u16; 64],
    epochs: &mut [u16; 64],
    waiters: &mut [Waiter; 8],
    task: TaskId,
) -> Result<bool, Refusal>
    ensures { MeetsLent pending slots epochs waiters.old waiters.new (told_reply result) (λ w. take_step w task) }
{
    if sound_at(pending, slots, epochs, waiters) {
        take_pending_in(pending, slots, epochs, waiters, task)
    } else {
        Err(Refusal::BadTable)
    }
}

pub fn is_pending_at(
    pending: &[u8; 64],
    slots: &[u16; 64],
    epochs: &[u16; 64],
    waiters: &[Waiter; 8],
    task: TaskId,
) -> Result<bool, Refusal>
    ensures { AnswersLent pending slots epochs waiters.now (told_reply result) (λ w. pending_reply w task) }
{
    if sound_at(pending, slots, epochs, waiters) {
        Ok(task.slot() < MAX_TASK_IDS && is_marked(pending, slots, epochs, task))
    } else {
        Err(Refusal::BadTable)
    }
}

impl WaitTable {
    pub fn new() -> WaitTable
        ensures { Makes waits result done new_step }
    {
        WaitTable {
            waiters: [Waiter::FREE; 8],
            pending: [0; 64],
            pending_slots: [0; 64],
            pending_epochs: [0; 64],
        }
    }

    pub fn sound(self) -> bool
        ensures { Tells result (Sound self) }
    {
        sound_at(
            &self.pending,
            &self.pending_slots,
            &self.pending_epochs,
            &self.waiters,
        )
    }

    // The task waits for the interrupt from now on.
    pub fn arm(mut self, cookie: Cookie, task: TaskId) -> Answered<WaitTable, ()>
        ensures { Meets waits self result.table (ack_reply result.answer) (arm_step (view self) cookie.0 task) }
    {
        let answer = arm_at(
            &mut self.pending,
            &mut self.pending_slots,
            &mut self.pending_epochs,
            &mut self.waiters,
            cookie,
            task,
        );
        Answered {
            table: self,
            answer,
        }
    }

    // The task waits for nothing any more.
    pub fn disarm_task(mut self, task: TaskId) -> Answered<WaitTable, ()>
        ensures { Meets waits self result.table (ack_reply result.answer) (disarm_step (view self) task) }
    {
        let answer = disarm_task_at(
            &mut self.pending,
            &mut self.pending_slots,
            &mut self.pending_epochs,
            &mut self.waiters,
            task,
        );
        Answered {
            table: self,
            answer,
        }
    }

    // The interrupt has come: its waiter's entry is free again, its slot is marked, and the caller wakes it.
    pub fn signal(mut self, cookie: Cookie) -> Answered<WaitTable, Option<TaskId>>
        ensures { Meets waits self result.table (named_reply result.answer) (signal_step (view self) cookie.0) }
    {
        let answer = signal_at(
            &mut self.pending,
            &mut self.pending_slots,
            &mut self.pending_epochs,
            &mut self.waiters,
            cookie,
        );
        Answered {
            table: self,
            answer,
        }
    }

    // Takes the task's mark. A mark for another tenant of the slot stays.
    pub fn take_pending(mut self, task: TaskId) -> Answered<WaitTable, bool>
        ensures { Meets waits self result.table (told_reply result.answer) (take_step (view self) task) }
    {
        let answer = take_pending_at(
            &mut self.pending,
            &mut self.pending_slots,
            &mut self.pending_epochs,
            &mut self.waiters,
            task,
        );
        Answered {
            table: self,
            answer,
        }
    }

    // Whether the task has a mark to take.
    pub fn is_pending(self, task: TaskId) -> Result<bool, Refusal>
        ensures { Answers waits self (told_reply result) (pending_reply (view self) task) }
    {
        is_pending_at(
            &self.pending,
            &self.pending_slots,
            &self.pending_epochs,
            &self.waiters,
            task,
        )
    }
}
