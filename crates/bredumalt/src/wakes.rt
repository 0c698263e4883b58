// The calls on the wake queue: a pointer to its tokens, and its ends by value.
ghost use Rattle.wake.specs.Queue.{Fit};
ghost use Rattle.wake.specs.Steps.{new_step, push_step, pop_step, drops_reply, empty_reply};
ghost use Rattle.wake.specs.Lent.{MakesLent, MeetsLent, AnswersAny};
ghost use Rattle.numbers.specs.Numbers.{Crossed};
ghost use Rattle.bredumalt.specs.Named.{TellsByte};

use ids::Token;
use numbers::Answer;
use wake::Ends;

// The ends, beside what the call answers.
#[repr(C)]
#[derive(Clone, Copy)]
pub struct EndsAnswer {
    pub ends: Ends,
    pub answer: Answer,
}

#[unsafe(no_mangle)]
pub extern "C" fn bredumalt_wake_new_at(
    tokens: &mut [u32; 64],
    mut ends: Ends,
    c: usize,
) -> EndsAnswer
    ensures { Crossed result.answer (λ got. MakesLent tokens ends result.ends got (new_step c)) }
{
    let answer = wake::new_at(tokens, &mut ends, c);
    EndsAnswer {
        ends,
        answer: numbers::answer_of(answer),
    }
}

// 1 where the queue is sound, else 0. Its tokens may be anything, here and where only the ends are asked for.
#[unsafe(no_mangle)]
pub extern "C" fn bredumalt_wake_sound_at(ends: Ends) -> u8
    ensures { TellsByte result (Fit ends.c ends.head ends.tail) }
{
    memory::flag(wake::sound_at(ends))
}

#[unsafe(no_mangle)]
pub extern "C" fn bredumalt_wake_drops_at(ends: Ends) -> Answer
    ensures { Crossed result (λ got. AnswersAny ends got drops_reply) }
{
    numbers::answer_of(wake::drops_at(ends))
}

#[unsafe(no_mangle)]
pub extern "C" fn bredumalt_wake_is_empty_at(ends: Ends) -> Answer
    ensures { Crossed result (λ got. AnswersAny ends got empty_reply) }
{
    numbers::answer_of(wake::is_empty_at(ends))
}

#[unsafe(no_mangle)]
pub extern "C" fn bredumalt_wake_push_at(
    tokens: &mut [u32; 64],
    mut ends: Ends,
    token: Token,
) -> EndsAnswer
    ensures { Crossed result.answer (λ got. MeetsLent tokens ends result.ends got (λ q. push_step q token.0)) }
{
    let answer = wake::push_at(tokens, &mut ends, token);
    EndsAnswer {
        ends,
        answer: numbers::answer_of(answer),
    }
}

#[unsafe(no_mangle)]
pub extern "C" fn bredumalt_wake_pop_at(tokens: &mut [u32; 64], mut ends: Ends) -> EndsAnswer
    ensures { Crossed result.answer (λ got. MeetsLent tokens ends result.ends got pop_step) }
{
    let answer = wake::pop_at(tokens, &mut ends);
    EndsAnswer {
        ends,
        answer: numbers::answer_of(answer),
    }
}
