// The calls on the table of interrupt waits: pointers to its marks, and its waiters by value.
ghost use Rattle.answers.specs.Reply.{done};
ghost use Rattle.answers.specs.Contract.{Makes};
ghost use Rattle.irqwait.specs.Waits.{Sound, waits};
ghost use Rattle.irqwait.specs.Steps.{new_step, arm_step, disarm_step, signal_step, take_step, pending_reply};
ghost use Rattle.irqwait.specs.Lent.{whole, lent, MeetsLent, AnswersLent};
ghost use Rattle.numbers.specs.Numbers.{Crossed};
ghost use Rattle.bredumalt.specs.Named.{TellsByte};

use ids::TaskId;
use irqwait::{Cookie, Waiter};
use numbers::Answer;

// An array can't cross by value, a struct that holds one can.
#[repr(C)]
#[derive(Clone, Copy)]
pub struct Waiters {
    pub all: [Waiter; 8],
}

// The waiters, beside what the call answers.
#[repr(C)]
#[derive(Clone, Copy)]
pub struct WaitersAnswer {
    pub waiters: Waiters,
    pub answer: Answer,
}

#[unsafe(no_mangle)]
pub extern "C" fn bredumalt_irqwait_new_at(
    pending: &mut [u8; 64],
    slots: &mut [u16; 64],
    epochs: &mut [u16; 64],
) -> Waiters
    ensures { Makes waits (lent pending.exit slots.exit epochs.exit result.all) done new_step }
{
    let mut all = [Waiter::FREE; 8];
    irqwait::new_at(pending, slots, epochs, &mut all);
    Waiters { all }
}

// 1 where the table is sound, else 0.
#[unsafe(no_mangle)]
pub extern "C" fn bredumalt_irqwait_sound_at<'a>(
    pending: &'a [u8; 64],
    slots: &'a [u16; 64],
    epochs: &'a [u16; 64],
    waiters: Waiters,
) -> u8
    ensures { TellsByte result (Sound (whole pending.now slots.now epochs.now waiters.all)) }
{
    memory::flag(irqwait::sound_at(pending, slots, epochs, &waiters.all))
}

#[unsafe(no_mangle)]
pub extern "C" fn bredumalt_irqwait_arm_at(
    pending: &mut [u8; 64],
    slots: &mut [u16; 64],
    epochs: &mut [u16; 64],
    mut waiters: Waiters,
    cookie: Cookie,
    task: TaskId,
) -> WaitersAnswer
    ensures { Crossed result.answer (λ got. MeetsLent pending slots epochs waiters.all result.waiters.all got (λ w. arm_step w cookie.0 task)) }
{
    let answer = irqwait::arm_at(pending, slots, epochs, &mut waiters.all, cookie, task);
    WaitersAnswer {
        waiters,
        answer: numbers::answer_of(answer),
    }
}

#[unsafe(no_mangle)]
pub extern "C" fn bredumalt_irqwait_disarm_task_at(
    pending: &mut [u8; 64],
    slots: &mut [u16; 64],
    epochs: &mut [u16; 64],
    mut waiters: Waiters,
    task: TaskId,
) -> WaitersAnswer
    ensures { Crossed result.answer (λ got. MeetsLent pending slots epochs waiters.all result.waiters.all got (λ w. disarm_step w task)) }
{
    let answer = irqwait::disarm_task_at(pending, slots, epochs, &mut waiters.all, task);
    WaitersAnswer {
        waiters,
        answer: numbers::answer_of(answer),
    }
}

#[unsafe(no_mangle)]
pub extern "C" fn bredumalt_irqwait_signal_at(
    pending: &mut [u8; 64],
    slots: &mut [u16; 64],
    epochs: &mut [u16; 64],
    mut waiters: Waiters,
    cookie: Cookie,
) -> WaitersAnswer
    ensures { Crossed result.answer (λ got. MeetsLent pending slots epochs waiters.all result.waiters.all got (λ w. signal_step w cookie.0)) }
{
    let answer = irqwait::signal_at(pending, slots, epochs, &mut waiters.all, cookie);
    WaitersAnswer {
        waiters,
        answer: numbers::answer_of(answer),
    }
}

#[unsafe(no_mangle)]
pub extern "C" fn bredumalt_irqwait_take_pending_at(
    pending: &mut [u8; 64],
    slots: &mut [u16; 64],
    epochs: &mut [u16; 64],
    mut waiters: Waiters,
    task: TaskId,
) -> WaitersAnswer
    ensures { Crossed result.answer (λ got. MeetsLent pending slots epochs waiters.all result.waiters.all got (λ w. take_step w task)) }
{
    let answer = irqwait::take_pending_at(pending, slots, epochs, &mut waiters.all, task);
    WaitersAnswer {
        waiters,
        answer: numbers::answer_of(answer),
    }
}

#[unsafe(no_mangle)]
pub extern "C" fn bredumalt_irqwait_is_pending_at<'a>(
    pending: &'a [u8; 64],
    slots: &'a [u16; 64],
    epochs: &'a [u16; 64],
    waiters: Waiters,
    task: TaskId,
) -> Answer
    ensures { Crossed result (λ got. AnswersLent pending slots epochs waiters.all got (λ w. pending_reply w task)) }
{
    let answer = irqwait::is_pending_at(pending, slots, epochs, &waiters.all, task);
    numbers::answer_of(answer)
}
