// The calls on a ring of ready tasks: pointers to its entries, and its span by value.
ghost use Rattle.runqueue.specs.Ring.{Fit};
ghost use Rattle.runqueue.specs.Steps.{new_step, enqueue_step, dequeue_step, after_yield_step, ready_at_reply, len_reply, empty_reply, full_reply, capacity_reply};
ghost use Rattle.runqueue.specs.Lent.{MakesLent, MeetsLent, AnswersLent, AnswersAny};
ghost use Rattle.numbers.specs.Numbers.{Crossed};
ghost use Rattle.numbers.specs.Operands.{flag_named, id_if};
ghost use Rattle.bredumalt.specs.Named.{TellsByte, MeetsRingNamed};

use answers::Refusal;
use ids::TaskId;
use numbers::Answer;
use runqueue::Span;

// The span, beside what the call answers.
#[repr(C)]
#[derive(Clone, Copy)]
pub struct SpanAnswer {
    pub span: Span,
    pub answer: Answer,
}

#[unsafe(no_mangle)]
pub extern "C" fn bredumalt_runqueue_new_at(
    slots: &mut [u16; 64],
    epochs: &mut [u16; 64],
    mut span: Span,
    n: usize,
) -> SpanAnswer
    ensures { Crossed result.answer (λ got. MakesLent slots epochs span result.span got (new_step n)) }
{
    let answer = runqueue::new_at(slots, epochs, &mut span, n);
    SpanAnswer {
        span,
        answer: numbers::answer_of(answer),
    }
}

// 1 where the ring is sound, else 0. Its entries may be anything, here and where only the span is asked for.
#[unsafe(no_mangle)]
pub extern "C" fn bredumalt_runqueue_sound_at(span: Span) -> u8
    ensures { TellsByte result (Fit span.n span.head span.len) }
{
    memory::flag(runqueue::sound_at(span))
}

#[unsafe(no_mangle)]
pub extern "C" fn bredumalt_runqueue_capacity_at(span: Span) -> Answer
    ensures { Crossed result (λ got. AnswersAny span got capacity_reply) }
{
    numbers::answer_of(runqueue::capacity_at(span))
}

#[unsafe(no_mangle)]
pub extern "C" fn bredumalt_runqueue_len_at(span: Span) -> Answer
    ensures { Crossed result (λ got. AnswersAny span got len_reply) }
{
    numbers::answer_of(runqueue::len_at(span))
}

#[unsafe(no_mangle)]
pub extern "C" fn bredumalt_runqueue_is_empty_at(span: Span) -> Answer
    ensures { Crossed result (λ got. AnswersAny span got empty_reply) }
{
    numbers::answer_of(runqueue::is_empty_at(span))
}

#[unsafe(no_mangle)]
pub extern "C" fn bredumalt_runqueue_is_full_at(span: Span) -> Answer
    ensures { Crossed result (λ got. AnswersAny span got full_reply) }
{
    numbers::answer_of(runqueue::is_full_at(span))
}

// The entry at a place counted from the head; the head itself at 0.
#[unsafe(no_mangle)]
pub extern "C" fn bredumalt_runqueue_ready_at_at<'a>(
    slots: &'a [u16; 64],
    epochs: &'a [u16; 64],
    span: Span,
    index: usize,
) -> Answer
    ensures { Crossed result (λ got. AnswersLent slots epochs span got (λ q. ready_at_reply q index)) }
{
    numbers::answer_of(runqueue::entry_at(slots, epochs, span, index))
}

#[unsafe(no_mangle)]
pub extern "C" fn bredumalt_runqueue_enqueue_at(
    slots: &mut [u16; 64],
    epochs: &mut [u16; 64],
    mut span: Span,
    id: TaskId,
) -> SpanAnswer
    ensures { Crossed result.answer (λ got. MeetsLent slots epochs span result.span got (λ q. enqueue_step q id)) }
{
    let answer = runqueue::enqueue_at(slots, epochs, &mut span, id);
    SpanAnswer {
        span,
        answer: numbers::answer_of(answer),
    }
}

#[unsafe(no_mangle)]
pub extern "C" fn bredumalt_runqueue_dequeue_at(
    slots: &mut [u16; 64],
    epochs: &mut [u16; 64],
    mut span: Span,
) -> SpanAnswer
    ensures { Crossed result.answer (λ got. MeetsLent slots epochs span result.span got dequeue_step) }
{
    let answer = runqueue::dequeue_at(slots, epochs, &mut span);
    SpanAnswer {
        span,
        answer: numbers::answer_of(answer),
    }
}

// The id goes to the tail where the flag is set, and else counts for nothing. A byte that names no flag is 12.
#[unsafe(no_mangle)]
pub extern "C" fn bredumalt_runqueue_after_yield_at(
    slots: &mut [u16; 64],
    epochs: &mut [u16; 64],
    mut span: Span,
    requeue: u8,
    id: TaskId,
) -> SpanAnswer
    ensures { Crossed result.answer (λ got. MeetsRingNamed slots epochs span result.span got (λ b q. after_yield_step q (id_if b id)) (flag_named requeue)) }
{
    let Some(requeue) = numbers::flag_of(requeue) else {
        return SpanAnswer {
            span,
            answer: numbers::refusing(Refusal::BadLine),
        };
    };
    let who = numbers::requeue_of(requeue, id);
    let answer = runqueue::after_yield_at(slots, epochs, &mut span, who);
    SpanAnswer {
        span,
        answer: numbers::answer_of(answer),
    }
}
