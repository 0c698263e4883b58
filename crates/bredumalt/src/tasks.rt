// The calls on a task table: pointers to its arrays, and its small part by value.
ghost use Rattle.model.specs.Steps.{new_step, start_step, start_cpu_step, admit_step, mark_step, wake_step, collect_step};
ghost use Rattle.model.specs.Switch.{try_steal_step, switch_step};
ghost use Rattle.memory.specs.View.{Sound};
ghost use Rattle.numbers.specs.Numbers.{Crossed};
ghost use Rattle.numbers.specs.Operands.{kind_named, flag_named};
ghost use Rattle.bredumalt.specs.Arrays.{stays, MakesLent, MeetsLent};
ghost use Rattle.bredumalt.specs.Named.{MeetsLentNamed, TellsByte};

use answers::Refusal;
use ids::TaskId;
use memory::{Small, TasksMut, TasksRef};
use numbers::Answer;

// The small part, beside what the call answers.
#[repr(C)]
#[derive(Clone, Copy)]
pub struct SmallAnswer {
    pub small: Small,
    pub answer: Answer,
}

#[unsafe(no_mangle)]
pub extern "C" fn bredumalt_tasks_new_at(
    states: &mut [u8; 64],
    epochs: &mut [u16; 64],
    homes: &mut [u8; 64],
    marks: &mut [u8; 64],
    ring_slots: &mut [u16; 128],
    ring_epochs: &mut [u16; 128],
    mut small: Small,
    n: usize,
) -> SmallAnswer
    ensures { Crossed result.answer (λ got. MakesLent states epochs homes marks ring_slots ring_epochs small result.small got (new_step n)) }
{
    let mut t = TasksMut {
        small: &mut small,
        states,
        epochs,
        homes,
        marks,
        ring_slots,
        ring_epochs,
    };
    let answer = memory::new_at(&mut t, n);
    SmallAnswer {
        small,
        answer: numbers::answer_of(answer),
    }
}

// 1 where the table is sound, else 0.
#[unsafe(no_mangle)]
pub extern "C" fn bredumalt_tasks_sound_at<'a>(
    states: &'a [u8; 64],
    epochs: &'a [u16; 64],
    homes: &'a [u8; 64],
    marks: &'a [u8; 64],
    ring_slots: &'a [u16; 128],
    ring_epochs: &'a [u16; 128],
    small: Small,
) -> u8
    ensures { TellsByte result (Sound (stays states epochs homes marks ring_slots ring_epochs small)) }
{
    let t = TasksRef {
        small: &small,
        states,
        epochs,
        homes,
        marks,
        ring_slots,
        ring_epochs,
    };
    memory::flag(checks::sound_at(t))
}

#[unsafe(no_mangle)]
pub extern "C" fn bredumalt_tasks_start_at(
    states: &mut [u8; 64],
    epochs: &mut [u16; 64],
    homes: &mut [u8; 64],
    marks: &mut [u8; 64],
    ring_slots: &mut [u16; 128],
    ring_epochs: &mut [u16; 128],
    mut small: Small,
) -> SmallAnswer
    ensures { Crossed result.answer (λ got. MeetsLent states epochs homes marks ring_slots ring_epochs small result.small got start_step) }
{
    let mut t = TasksMut {
        small: &mut small,
        states,
        epochs,
        homes,
        marks,
        ring_slots,
        ring_epochs,
    };
    let answer = tasks_lent::start_at(&mut t);
    SmallAnswer {
        small,
        answer: numbers::answer_of(answer),
    }
}

#[unsafe(no_mangle)]
pub extern "C" fn bredumalt_tasks_start_cpu1_at(
    states: &mut [u8; 64],
    epochs: &mut [u16; 64],
    homes: &mut [u8; 64],
    marks: &mut [u8; 64],
    ring_slots: &mut [u16; 128],
    ring_epochs: &mut [u16; 128],
    mut small: Small,
) -> SmallAnswer
    ensures { Crossed result.answer (λ got. MeetsLent states epochs homes marks ring_slots ring_epochs small result.small got (λ m. start_cpu_step m 1)) }
{
    let mut t = TasksMut {
        small: &mut small,
        states,
        epochs,
        homes,
        marks,
        ring_slots,
        ring_epochs,
    };
    let answer = tasks_lent::start_cpu1_at(&mut t);
    SmallAnswer {
        small,
        answer: numbers::answer_of(answer),
    }
}

#[unsafe(no_mangle)]
pub extern "C" fn bredumalt_tasks_admit_on_at(
    states: &mut [u8; 64],
    epochs: &mut [u16; 64],
    homes: &mut [u8; 64],
    marks: &mut [u8; 64],
    ring_slots: &mut [u16; 128],
    ring_epochs: &mut [u16; 128],
    mut small: Small,
    cpu: u8,
) -> SmallAnswer
    ensures { Crossed result.answer (λ got. MeetsLent states epochs homes marks ring_slots ring_epochs small result.small got (λ m. admit_step m cpu)) }
{
    let mut t = TasksMut {
        small: &mut small,
        states,
        epochs,
        homes,
        marks,
        ring_slots,
        ring_epochs,
    };
    let answer = tasks_lent::admit_on_at(&mut t, cpu);
    SmallAnswer {
        small,
        answer: numbers::answer_of(answer),
    }
}

#[unsafe(no_mangle)]
pub extern "C" fn bredumalt_tasks_wake_at(
    states: &mut [u8; 64],
    epochs: &mut [u16; 64],
    homes: &mut [u8; 64],
    marks: &mut [u8; 64],
    ring_slots: &mut [u16; 128],
    ring_epochs: &mut [u16; 128],
    mut small: Small,
    id: TaskId,
) -> SmallAnswer
    ensures { Crossed result.answer (λ got. MeetsLent states epochs homes marks ring_slots ring_epochs small result.small got (λ m. wake_step m id)) }
{
    let mut t = TasksMut {
        small: &mut small,
        states,
        epochs,
        homes,
        marks,
        ring_slots,
        ring_epochs,
    };
    let answer = tasks_lent::wake_at(&mut t, id);
    SmallAnswer {
        small,
        answer: numbers::answer_of(answer),
    }
}

#[unsafe(no_mangle)]
pub extern "C" fn bredumalt_tasks_collect_at(
    states: &mut [u8; 64],
    epochs: &mut [u16; 64],
    homes: &mut [u8; 64],
    marks: &mut [u8; 64],
    ring_slots: &mut [u16; 128],
    ring_epochs: &mut [u16; 128],
    mut small: Small,
) -> SmallAnswer
    ensures { Crossed result.answer (λ got. MeetsLent states epochs homes marks ring_slots ring_epochs small result.small got collect_step) }
{
    let mut t = TasksMut {
        small: &mut small,
        states,
        epochs,
        homes,
        marks,
        ring_slots,
        ring_epochs,
    };
    let answer = tasks_lent::collect_at(&mut t);
    SmallAnswer {
        small,
        answer: numbers::answer_of(answer),
    }
}

#[unsafe(no_mangle)]
pub extern "C" fn bredumalt_tasks_try_steal_into_at(
    states: &mut [u8; 64],
    epochs: &mut [u16; 64],
    homes: &mut [u8; 64],
    marks: &mut [u8; 64],
    ring_slots: &mut [u16; 128],
    ring_epochs: &mut [u16; 128],
    mut small: Small,
    thief: u8,
) -> SmallAnswer
    ensures { Crossed result.answer (λ got. MeetsLent states epochs homes marks ring_slots ring_epochs small result.small got (λ m. try_steal_step m thief)) }
{
    let mut t = TasksMut {
        small: &mut small,
        states,
        epochs,
        homes,
        marks,
        ring_slots,
        ring_epochs,
    };
    let answer = tasks_lent::try_steal_into_at(&mut t, thief);
    SmallAnswer {
        small,
        answer: numbers::answer_of(answer),
    }
}

// A flag crosses as a byte; one that names none is 12, and the table is not looked at.
#[unsafe(no_mangle)]
pub extern "C" fn bredumalt_tasks_set_stealeable_at(
    states: &mut [u8; 64],
    epochs: &mut [u16; 64],
    homes: &mut [u8; 64],
    marks: &mut [u8; 64],
    ring_slots: &mut [u16; 128],
    ring_epochs: &mut [u16; 128],
    mut small: Small,
    id: TaskId,
    mark: u8,
) -> SmallAnswer
    ensures { Crossed result.answer (λ got. MeetsLentNamed states epochs homes marks ring_slots ring_epochs small result.small got (λ b m. mark_step m id b) (flag_named mark)) }
{
    let Some(mark) = numbers::flag_of(mark) else {
        return SmallAnswer {
            small,
            answer: numbers::refusing(Refusal::BadLine),
        };
    };
    let mut t = TasksMut {
        small: &mut small,
        states,
        epochs,
        homes,
        marks,
        ring_slots,
        ring_epochs,
    };
    let answer = tasks_lent::set_stealeable_at(&mut t, id, mark);
    SmallAnswer {
        small,
        answer: numbers::answer_of(answer),
    }
}

// A kind of switch crosses as its number, likewise.
#[unsafe(no_mangle)]
pub extern "C" fn bredumalt_tasks_switch_on_at(
    states: &mut [u8; 64],
    epochs: &mut [u16; 64],
    homes: &mut [u8; 64],
    marks: &mut [u8; 64],
    ring_slots: &mut [u16; 128],
    ring_epochs: &mut [u16; 128],
    mut small: Small,
    cpu: u8,
    kind: u8,
) -> SmallAnswer
    ensures { Crossed result.answer (λ got. MeetsLentNamed states epochs homes marks ring_slots ring_epochs small result.small got (λ k m. switch_step m cpu k) (kind_named kind)) }
{
    let Some(kind) = numbers::kind_of(kind) else {
        return SmallAnswer {
            small,
            answer: numbers::refusing(Refusal::BadLine),
        };
    };
    let mut t = TasksMut {
        small: &mut small,
        states,
        epochs,
        homes,
        marks,
        ring_slots,
        ring_epochs,
    };
    let answer = tasks_lent::switch_on_at(&mut t, cpu, kind);
    SmallAnswer {
        small,
        answer: numbers::answer_of(answer),
    }
}
