// The FIFO ring of ready tasks: it orders them and does nothing else.
#![tactic(auto)]

ghost use Rattle.std.specs.Prelude.{◌≡◌, ◌+◌, ◌<◌};
ghost use Rattle.lists.specs.Tells.{Tells};
ghost use Rattle.answers.specs.Sizes.{listed};
ghost use Rattle.answers.specs.Answers.{ack_reply, told_reply, count_reply, named_reply};
ghost use Rattle.answers.specs.Contract.{Makes, Meets, Answers};
ghost use Rattle.runqueue.specs.Ring.{placed, view, Fit, Sound, ring};
ghost use Rattle.runqueue.specs.Lent.{lent, MakesLent, DoesLent, MeetsLent, AnswersLent, AnswersAny};
ghost use Rattle.runqueue.specs.Steps.{new_step, enqueue_step, dequeue_step, after_yield_step, front_reply, ready_at_reply, len_reply, empty_reply, full_reply, capacity_reply};

use answers::{Answered, Refusal};
use ids::TaskId;

// The ring without its entries: how many places count, where the head is, how many are queued.
#[repr(C)]
#[derive(Clone, Copy, Debug, PartialEq, Eq)]
pub struct Span {
    pub n: usize,
    pub head: usize,
    pub len: usize,
}

// Of the 64 places only the first n count. An id is kept in its two halves, so that an array of them can be lent.
#[repr(C)]
#[derive(Clone, Copy)]
pub struct RunQueue {
    pub span: Span,
    pub slots: [u16; 64],
    pub epochs: [u16; 64],
}

// Where a count of places from the start of a ring of n lies. Every wrap of every ring is computed here; counts stay below
// 2n, so a subtraction does what a division would.
pub fn place(n: usize, x: usize) -> usize
    requires { x < n + n }
    ensures { (result ≡ placed n x) × (result < n) }
{
    if x < n { x } else { x - n }
}

// Whether a ring, and a task table, can have n places.
pub fn is_listed(n: usize) -> bool
    ensures { result ≡ listed n }
{
    1 <= n && n <= 64
}

impl Span {
    fn empty(n: usize) -> Span
        ensures { result ≡ record { n = n; head = 0; len = 0 } }
    {
        Span { n, head: 0, len: 0 }
    }
}

// A ring is made where its entries lie; beside BadSize what lay there stays.
pub fn new_at(
    slots: &mut [u16; 64],
    epochs: &mut [u16; 64],
    span: &mut Span,
    n: usize,
) -> Result<(), Refusal>
    ensures { MakesLent slots epochs span.old span.new (ack_reply result) (new_step n) }
{
    if !is_listed(n) {
        return Err(Refusal::BadSize);
    }
    *slots = [0; 64];
    *epochs = [0; 64];
    *span = Span::empty(n);
    Ok(())
}

// INNER CALLS: the ring is lent, and the caller knows it to be sound

fn enqueue_in(
    slots: &mut [u16; 64],
    epochs: &mut [u16; 64],
    span: &mut Span,
    id: TaskId,
) -> Result<(), Refusal>
    requires { Sound (lent slots epochs span.old) }
    ensures { DoesLent slots epochs span.old span.new (ack_reply result) (λ q. enqueue_step q id) }
{
    if span.n <= span.len {
        return Err(Refusal::Full);
    }
    let tail = place(span.n, span.head + span.len);
    slots[tail] = id.slot;
    epochs[tail] = id.epoch;
    span.len += 1;
    Ok(())
}

fn dequeue_in(
    slots: &mut [u16; 64],
    epochs: &mut [u16; 64],
    span: &mut Span,
) -> Result<Option<TaskId>, Refusal>
    requires { Sound (lent slots epochs span.old) }
    ensures { DoesLent slots epochs span.old span.new (named_reply result) dequeue_step }
{
    if span.len == 0 {
        return Ok(None);
    }
    let head = span.head;
    span.head = place(span.n, head + 1);
    span.len -= 1;
    Ok(Some(TaskId {
        slot: slots[head],
        epoch: epochs[head],
    }))
}

fn after_yield_in(
    slots: &mut [u16; 64],
    epochs: &mut [u16; 64],
    span: &mut Span,
    requeue: Option<TaskId>,
) -> Result<Option<TaskId>, Refusal>
    requires { Sound (lent slots epochs span.old) }
    ensures { DoesLent slots epochs span.old span.new (named_reply result) (λ q. after_yield_step q requeue) }
{
    let Some(id) = requeue else {
        return dequeue_in(slots, epochs, span);
    };
    enqueue_in(slots, epochs, span, id)?;
    dequeue_in(slots, epochs, span)
}

// CALLS OF THE PRODUCT ON A RING THAT IS LENT: the test, then 1 or the inner call. Some ask for the span alone, whatever the entries are.

pub fn sound_at(span: Span) -> bool
    ensures { Tells result (Fit span.n span.head span.len) }
{
    is_listed(span.n) && span.head < span.n && span.len <= span.n
}

pub fn capacity_at(span: Span) -> Result<u64, Refusal>
    ensures { AnswersAny span (count_reply result) capacity_reply }
{
    if !sound_at(span) {
        return Err(Refusal::BadTable);
    }
    Ok(span.n as u64)
}

pub fn len_at(span: Span) -> Result<u64, Refusal>
    ensures { AnswersAny span (count_reply result) len_reply }
{
    if !sound_at(span) {
        return Err(Refusal::BadTable);
    }
    Ok(span.len as u64)
}

pub fn is_empty_at(span: Span) -> Result<bool, Refusal>
    ensures { AnswersAny span (told_reply result) empty_reply }
{
    if !sound_at(span) {
        return Err(Refusal::BadTable);
    }
    Ok(span.len == 0)
}

pub fn is_full_at(span: Span) -> Result<bool, Refusal>
    ensures { AnswersAny span (told_reply result) full_reply }
{
    if !sound_at(span) {
        return Err(Refusal::BadTable);
    }
    Ok(span.len == span.n)
}

// The entry at a place counted from the head.
pub fn entry_at<'a>(
    slots: &'a [u16; 64],
    epochs: &'a [u16; 64],
    span: Span,
    index: usize,
) -> Result<Option<TaskId>, Refusal>
    ensures { AnswersLent slots epochs span (named_reply result) (λ q. ready_at_reply q index) }
{
    if !sound_at(span) {
        return Err(Refusal::BadTable);
    }
    if span.len <= index {
        return Ok(None);
    }
    let at = place(span.n, span.head + index);
    Ok(Some(TaskId {
        slot: slots[at],
        epoch: epochs[at],
    }))
}

pub fn enqueue_at(
    slots: &mut [u16; 64],
    epochs: &mut [u16; 64],
    span: &mut Span,
    id: TaskId,
) -> Result<(), Refusal>
    ensures { MeetsLent slots epochs span.old span.new (ack_reply result) (λ q. enqueue_step q id) }
{
    if !sound_at(*span) {
        return Err(Refusal::BadTable);
    }
    enqueue_in(slots, epochs, span, id)
}

pub fn dequeue_at(
    slots: &mut [u16; 64],
    epochs: &mut [u16; 64],
    span: &mut Span,
) -> Result<Option<TaskId>, Refusal>
    ensures { MeetsLent slots epochs span.old span.new (named_reply result) dequeue_step }
{
    if !sound_at(*span) {
        return Err(Refusal::BadTable);
    }
    dequeue_in(slots, epochs, span)
}

pub fn after_yield_at(
    slots: &mut [u16; 64],
    epochs: &mut [u16; 64],
    span: &mut Span,
    requeue: Option<TaskId>,
) -> Result<Option<TaskId>, Refusal>
    ensures { MeetsLent slots epochs span.old span.new (named_reply result) (λ q. after_yield_step q requeue) }
{
    if !sound_at(*span) {
        return Err(Refusal::BadTable);
    }
    after_yield_in(slots, epochs, span, requeue)
}

impl RunQueue {
    // An empty ring; beside BadSize an empty ring of one place.
    pub fn new(n: usize) -> Answered<RunQueue, ()>
        ensures { Makes ring result.table (ack_reply result.answer) (new_step n) }
    {
        if !is_listed(n) {
            return Answered {
                table: RunQueue::empty(1),
                answer: Err(Refusal::BadSize),
            };
        }
        Answered {
            table: RunQueue::empty(n),
            answer: Ok(()),
        }
    }

    fn empty(n: usize) -> RunQueue
        ensures { result.span ≡ record { n = n; head = 0; len = 0 } }
    {
        RunQueue {
            span: Span::empty(n),
            slots: [0; 64],
            epochs: [0; 64],
        }
    }

    pub fn sound(self) -> bool
        ensures { Tells result (Sound self) }
    {
        sound_at(self.span)
    }

    pub fn capacity(self) -> Result<u64, Refusal>
        ensures { Answers ring self (count_reply result) (capacity_reply (view self)) }
    {
        capacity_at(self.span)
    }

    pub fn len(self) -> Result<u64, Refusal>
        ensures { Answers ring self (count_reply result) (len_reply (view self)) }
    {
        len_at(self.span)
    }

    pub fn is_empty(self) -> Result<bool, Refusal>
        ensures { Answers ring self (told_reply result) (empty_reply (view self)) }
    {
        is_empty_at(self.span)
    }

    pub fn is_full(self) -> Result<bool, Refusal>
        ensures { Answers ring self (told_reply result) (full_reply (view self)) }
    {
        is_full_at(self.span)
    }

    // The head, left where it is.
    pub fn front(self) -> Result<Option<TaskId>, Refusal>
        ensures { Answers ring self (named_reply result) (front_reply (view self)) }
    {
        self.ready_at(0)
    }

    // The entry at a place counted from the head: for every place in turn, all that is queued.
    pub fn ready_at(self, index: usize) -> Result<Option<TaskId>, Refusal>
        ensures { Answers ring self (named_reply result) (ready_at_reply (view self) index) }
    {
        entry_at(&self.slots, &self.epochs, self.span, index)
    }

    // Puts a task at the tail.
    pub fn enqueue(self, id: TaskId) -> Answered<RunQueue, ()>
        ensures { Meets ring self result.table (ack_reply result.answer) (enqueue_step (view self) id) }
    {
        let RunQueue {
            mut span,
            mut slots,
            mut epochs,
        } = self;
        let answer = enqueue_at(&mut slots, &mut epochs, &mut span, id);
        Answered {
            table: RunQueue {
                span,
                slots,
                epochs,
            },
            answer,
        }
    }

    // Takes the head.
    pub fn dequeue(self) -> Answered<RunQueue, Option<TaskId>>
        ensures { Meets ring self result.table (named_reply result.answer) (dequeue_step (view self)) }
    {
        let RunQueue {
            mut span,
            mut slots,
            mut epochs,
        } = self;
        let answer = dequeue_at(&mut slots, &mut epochs, &mut span);
        Answered {
            table: RunQueue {
                span,
                slots,
                epochs,
            },
            answer,
        }
    }

    // Puts the one that goes on to the tail, if any, and takes the head. Whether there is room is asked first, so a
    // full ring refuses although the head is about to leave.
    pub fn after_yield(self, requeue: Option<TaskId>) -> Answered<RunQueue, Option<TaskId>>
        ensures { Meets ring self result.table (named_reply result.answer) (after_yield_step (view self) requeue) }
    {
        let RunQueue {
            mut span,
            mut slots,
            mut epochs,
        } = self;
        let answer = after_yield_at(&mut slots, &mut epochs, &mut span, requeue);
        Answered {
            table: RunQueue {
                span,
                slots,
                epochs,
            },
            answer,
        }
    }
}
