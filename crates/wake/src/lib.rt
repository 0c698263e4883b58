// The wake queue: tokens go from the interrupt side to the scheduler's. One place always stays free, so that a full queue
// and an empty one can be told apart by the two indexes.
#![tactic(auto)]

ghost use Rattle.std.specs.Prelude.{◌≡◌};
ghost use Rattle.lists.specs.Tells.{Tells};
ghost use Rattle.answers.specs.Answers.{ack_reply, told_reply, count_reply};
ghost use Rattle.answers.specs.Contract.{Makes, Meets, Answers};
ghost use Rattle.wake.specs.Queue.{listed, Fit, view, Sound, wakes};
ghost use Rattle.wake.specs.Lent.{lent, MakesLent, DoesLent, MeetsLent, AnswersAny};
ghost use Rattle.wake.specs.Steps.{popped_reply, new_step, push_step, pop_step, drops_reply, empty_reply};

use answers::{Answered, Refusal};
use ids::Token;

// The queue without its tokens: its size, where the next token is written (head) and where the next is read (tail).
#[repr(C)]
#[derive(Clone, Copy, Debug, PartialEq, Eq, Hash)]
pub struct Ends {
    pub c: usize,
    pub head: usize,
    pub tail: usize,
    pub drops: u32,
}

// Of the 64 places only the first c count.
#[repr(C)]
#[derive(Clone, Copy)]
pub struct WakeQueue {
    pub ends: Ends,
    pub tokens: [u32; 64],
}

// Whether a queue can have c places.
#[tactic(auto, unfolding(crate::specs::Queue::listed))]
fn is_listed(c: usize) -> bool
    ensures { result ≡ listed c }
{
    matches!(c, 2 | 4 | 8 | 16 | 32 | 64)
}

impl Ends {
    fn empty(c: usize) -> Ends
        ensures { result ≡ record { c = c; head = 0; tail = 0; drops = 0 } }
    {
        Ends {
            c,
            head: 0,
            tail: 0,
            drops: 0,
        }
    }
}

// A queue is made where its tokens lie; beside BadSize what lay there stays.
pub fn new_at(tokens: &mut [u32; 64], ends: &mut Ends, c: usize) -> Result<(), Refusal>
    ensures { MakesLent tokens ends.old ends.new (ack_reply result) (new_step c) }
{
    if !is_listed(c) {
        return Err(Refusal::BadSize);
    }
    *tokens = [0; 64];
    *ends = Ends::empty(c);
    Ok(())
}

// INNER CALLS: the queue is lent, and the caller knows it to be sound

pub fn push_in(tokens: &mut [u32; 64], ends: &mut Ends, token: Token) -> Result<bool, Refusal>
    requires { Sound (lent tokens ends.old) }
    ensures { DoesLent tokens ends.old ends.new (told_reply result) (λ q. push_step q token.0) }
{
    let next = runqueue::place(ends.c, ends.head + 1);
    if next == ends.tail {
        ends.drops = ends.drops.wrapping_add(1);
        return Ok(false);
    }
    tokens[ends.head] = token.0;
    ends.head = next;
    Ok(true)
}

pub fn pop_in(tokens: &mut [u32; 64], ends: &mut Ends) -> Result<Option<Token>, Refusal>
    requires { Sound (lent tokens ends.old) }
    ensures { DoesLent tokens ends.old ends.new (popped_reply result) pop_step }
{
    if ends.tail == ends.head {
        return Ok(None);
    }
    let token = Token(tokens[ends.tail]);
    ends.tail = runqueue::place(ends.c, ends.tail + 1);
    Ok(Some(token))
}

// CALLS OF THE PRODUCT ON LENT TOKENS: the test, then 1 or the inner call. Some ask for the ends alone, whatever the tokens are.

pub fn sound_at(ends: Ends) -> bool
    ensures { Tells result (Fit ends.c ends.head ends.tail) }
{
    is_listed(ends.c) && ends.head < ends.c && ends.tail < ends.c
}

pub fn drops_at(ends: Ends) -> Result<u64, Refusal>
    ensures { AnswersAny ends (count_reply result) drops_reply }
{
    if sound_at(ends) {
        Ok(ends.drops as u64)
    } else {
        Err(Refusal::BadTable)
    }
}

pub fn is_empty_at(ends: Ends) -> Result<bool, Refusal>
    ensures { AnswersAny ends (told_reply result) empty_reply }
{
    if sound_at(ends) {
        Ok(ends.head == ends.tail)
    } else {
        Err(Refusal::BadTable)
    }
}

pub fn push_at(tokens: &mut [u32; 64], ends: &mut Ends, token: Token) -> Result<bool, Refusal>
    ensures { MeetsLent tokens ends.old ends.new (told_reply result) (λ q. push_step q token.0) }
{
    if sound_at(*ends) {
        push_in(tokens, ends, token)
    } else {
        Err(Refusal::BadTable)
    }
}

pub fn pop_at(tokens: &mut [u32; 64], ends: &mut Ends) -> Result<Option<Token>, Refusal>
    ensures { MeetsLent tokens ends.old ends.new (popped_reply result) pop_step }
{
    if sound_at(*ends) {
        pop_in(tokens, ends)
    } else {
        Err(Refusal::BadTable)
    }
}

impl WakeQueue {
    // An empty queue; beside BadSize an empty queue of two places.
    pub fn new(c: usize) -> Answered<WakeQueue, ()>
        ensures { Makes wakes result.table (ack_reply result.answer) (new_step c) }
    {
        if is_listed(c) {
            Answered {
                table: WakeQueue::empty(c),
                answer: Ok(()),
            }
        } else {
            Answered {
                table: WakeQueue::empty(2),
                answer: Err(Refusal::BadSize),
            }
        }
    }

    fn empty(c: usize) -> WakeQueue
        ensures { result.ends ≡ record { c = c; head = 0; tail = 0; drops = 0 } }
    {
        WakeQueue {
            ends: Ends::empty(c),
            tokens: [0; 64],
        }
    }

    pub fn sound(self) -> bool
        ensures { Tells result (Sound self) }
    {
        sound_at(self.ends)
    }

    // How many pushes found the queue full.
    pub fn drops(self) -> Result<u64, Refusal>
        ensures { Answers wakes self (count_reply result) (drops_reply (view self)) }
    {
        drops_at(self.ends)
    }

    pub fn is_empty(self) -> Result<bool, Refusal>
        ensures { Answers wakes self (told_reply result) (empty_reply (view self)) }
    {
        is_empty_at(self.ends)
    }

    // Puts a token behind the others; a queue that is full drops it and counts the drop.
    pub fn push(self, token: Token) -> Answered<WakeQueue, bool>
        ensures { Meets wakes self result.table (told_reply result.answer) (push_step (view self) token.0) }
    {
        let WakeQueue {
            mut ends,
            mut tokens,
        } = self;
        let answer = push_at(&mut tokens, &mut ends, token);
        Answered {
            table: WakeQueue { ends, tokens },
            answer,
        }
    }

    // Takes the oldest token.
    pub fn pop(self) -> Answered<WakeQueue, Option<Token>>
        ensures { Meets wakes self result.table (popped_reply result.answer) (pop_step (view self)) }
    {
        let WakeQueue {
            mut ends,
            mut tokens,
        } = self;
        let answer = pop_at(&mut tokens, &mut ends);
        Answered {
            table: WakeQueue { ends, tokens },
            answer,
        }
    }
}
