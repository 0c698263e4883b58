// What a task table tells: pointers to its arrays, and its small part by value.
ghost use Rattle.model.specs.Reads.{current_reply, idle_reply, ready_reply, started_reply, state_reply, home_reply, live_reply, stealeable_reply, can_steal_reply, overwrites_reply, blocked_reply, block_events_reply, live_count_reply, peak_reply};
ghost use Rattle.numbers.specs.Numbers.{Crossed};
ghost use Rattle.bredumalt.specs.Arrays.{AnswersLent};

use ids::TaskId;
use memory::{Small, TasksRef};
use numbers::Answer;

#[unsafe(no_mangle)]
pub extern "C" fn bredumalt_tasks_current_on_at<'a>(
    states: &'a [u8; 64],
    epochs: &'a [u16; 64],
    homes: &'a [u8; 64],
    marks: &'a [u8; 64],
    ring_slots: &'a [u16; 128],
    ring_epochs: &'a [u16; 128],
    small: Small,
    cpu: u8,
) -> Answer
    ensures { Crossed result (λ got. AnswersLent states epochs homes marks ring_slots ring_epochs small got (λ m. current_reply m cpu)) }
{
    let t = TasksRef {
        small: &small,
        states,
        epochs,
        homes,
        marks,
        ring_slots,
        ring_epochs,
    };
    numbers::answer_of(tasks_lent::current_on_at(t, cpu))
}

#[unsafe(no_mangle)]
pub extern "C" fn bredumalt_tasks_idle_of_at<'a>(
    states: &'a [u8; 64],
    epochs: &'a [u16; 64],
    homes: &'a [u8; 64],
    marks: &'a [u8; 64],
    ring_slots: &'a [u16; 128],
    ring_epochs: &'a [u16; 128],
    small: Small,
    cpu: u8,
) -> Answer
    ensures { Crossed result (λ got. AnswersLent states epochs homes marks ring_slots ring_epochs small got (λ m. idle_reply m cpu)) }
{
    let t = TasksRef {
        small: &small,
        states,
        epochs,
        homes,
        marks,
        ring_slots,
        ring_epochs,
    };
    numbers::answer_of(tasks_lent::idle_of_at(t, cpu))
}

#[unsafe(no_mangle)]
pub extern "C" fn bredumalt_tasks_has_ready_on_at<'a>(
    states: &'a [u8; 64],
    epochs: &'a [u16; 64],
    homes: &'a [u8; 64],
    marks: &'a [u8; 64],
    ring_slots: &'a [u16; 128],
    ring_epochs: &'a [u16; 128],
    small: Small,
    cpu: u8,
) -> Answer
    ensures { Crossed result (λ got. AnswersLent states epochs homes marks ring_slots ring_epochs small got (λ m. ready_reply m cpu)) }
{
    let t = TasksRef {
        small: &small,
        states,
        epochs,
        homes,
        marks,
        ring_slots,
        ring_epochs,
    };
    numbers::answer_of(tasks_lent::has_ready_on_at(t, cpu))
}

#[unsafe(no_mangle)]
pub extern "C" fn bredumalt_tasks_cpu1_started_at<'a>(
    states: &'a [u8; 64],
    epochs: &'a [u16; 64],
    homes: &'a [u8; 64],
    marks: &'a [u8; 64],
    ring_slots: &'a [u16; 128],
    ring_epochs: &'a [u16; 128],
    small: Small,
) -> Answer
    ensures { Crossed result (λ got. AnswersLent states epochs homes marks ring_slots ring_epochs small got (λ m. started_reply m 1)) }
{
    let t = TasksRef {
        small: &small,
        states,
        epochs,
        homes,
        marks,
        ring_slots,
        ring_epochs,
    };
    numbers::answer_of(tasks_lent::cpu1_started_at(t))
}

#[unsafe(no_mangle)]
pub extern "C" fn bredumalt_tasks_state_at<'a>(
    states: &'a [u8; 64],
    epochs: &'a [u16; 64],
    homes: &'a [u8; 64],
    marks: &'a [u8; 64],
    ring_slots: &'a [u16; 128],
    ring_epochs: &'a [u16; 128],
    small: Small,
    id: TaskId,
) -> Answer
    ensures { Crossed result (λ got. AnswersLent states epochs homes marks ring_slots ring_epochs small got (λ m. state_reply m id)) }
{
    let t = TasksRef {
        small: &small,
        states,
        epochs,
        homes,
        marks,
        ring_slots,
        ring_epochs,
    };
    numbers::answer_of(tasks_lent::state_at(t, id))
}

#[unsafe(no_mangle)]
pub extern "C" fn bredumalt_tasks_home_of_at<'a>(
    states: &'a [u8; 64],
    epochs: &'a [u16; 64],
    homes: &'a [u8; 64],
    marks: &'a [u8; 64],
    ring_slots: &'a [u16; 128],
    ring_epochs: &'a [u16; 128],
    small: Small,
    id: TaskId,
) -> Answer
    ensures { Crossed result (λ got. AnswersLent states epochs homes marks ring_slots ring_epochs small got (λ m. home_reply m id)) }
{
    let t = TasksRef {
        small: &small,
        states,
        epochs,
        homes,
        marks,
        ring_slots,
        ring_epochs,
    };
    numbers::answer_of(tasks_lent::home_of_at(t, id))
}

#[unsafe(no_mangle)]
pub extern "C" fn bredumalt_tasks_live_id_at<'a>(
    states: &'a [u8; 64],
    epochs: &'a [u16; 64],
    homes: &'a [u8; 64],
    marks: &'a [u8; 64],
    ring_slots: &'a [u16; 128],
    ring_epochs: &'a [u16; 128],
    small: Small,
    slot: usize,
) -> Answer
    ensures { Crossed result (λ got. AnswersLent states epochs homes marks ring_slots ring_epochs small got (λ m. live_reply m slot)) }
{
    let t = TasksRef {
        small: &small,
        states,
        epochs,
        homes,
        marks,
        ring_slots,
        ring_epochs,
    };
    numbers::answer_of(tasks_lent::live_id_at(t, slot))
}

#[unsafe(no_mangle)]
pub extern "C" fn bredumalt_tasks_is_stealeable_at<'a>(
    states: &'a [u8; 64],
    epochs: &'a [u16; 64],
    homes: &'a [u8; 64],
    marks: &'a [u8; 64],
    ring_slots: &'a [u16; 128],
    ring_epochs: &'a [u16; 128],
    small: Small,
    id: TaskId,
) -> Answer
    ensures { Crossed result (λ got. AnswersLent states epochs homes marks ring_slots ring_epochs small got (λ m. stealeable_reply m id)) }
{
    let t = TasksRef {
        small: &small,
        states,
        epochs,
        homes,
        marks,
        ring_slots,
        ring_epochs,
    };
    numbers::answer_of(tasks_lent::is_stealeable_at(t, id))
}

#[unsafe(no_mangle)]
pub extern "C" fn bredumalt_tasks_can_steal_into_at<'a>(
    states: &'a [u8; 64],
    epochs: &'a [u16; 64],
    homes: &'a [u8; 64],
    marks: &'a [u8; 64],
    ring_slots: &'a [u16; 128],
    ring_epochs: &'a [u16; 128],
    small: Small,
    thief: u8,
) -> Answer
    ensures { Crossed result (λ got. AnswersLent states epochs homes marks ring_slots ring_epochs small got (λ m. can_steal_reply m thief)) }
{
    let t = TasksRef {
        small: &small,
        states,
        epochs,
        homes,
        marks,
        ring_slots,
        ring_epochs,
    };
    numbers::answer_of(tasks_lent::can_steal_into_at(t, thief))
}

#[unsafe(no_mangle)]
pub extern "C" fn bredumalt_tasks_overwrites_at<'a>(
    states: &'a [u8; 64],
    epochs: &'a [u16; 64],
    homes: &'a [u8; 64],
    marks: &'a [u8; 64],
    ring_slots: &'a [u16; 128],
    ring_epochs: &'a [u16; 128],
    small: Small,
) -> Answer
    ensures { Crossed result (λ got. AnswersLent states epochs homes marks ring_slots ring_epochs small got overwrites_reply) }
{
    let t = TasksRef {
        small: &small,
        states,
        epochs,
        homes,
        marks,
        ring_slots,
        ring_epochs,
    };
    numbers::answer_of(tasks_lent::overwrites_at(t))
}

#[unsafe(no_mangle)]
pub extern "C" fn bredumalt_tasks_blocked_count_at<'a>(
    states: &'a [u8; 64],
    epochs: &'a [u16; 64],
    homes: &'a [u8; 64],
    marks: &'a [u8; 64],
    ring_slots: &'a [u16; 128],
    ring_epochs: &'a [u16; 128],
    small: Small,
) -> Answer
    ensures { Crossed result (λ got. AnswersLent states epochs homes marks ring_slots ring_epochs small got blocked_reply) }
{
    let t = TasksRef {
        small: &small,
        states,
        epochs,
        homes,
        marks,
        ring_slots,
        ring_epochs,
    };
    numbers::answer_of(tasks_lent::blocked_count_at(t))
}

#[unsafe(no_mangle)]
pub extern "C" fn bredumalt_tasks_block_events_at<'a>(
    states: &'a [u8; 64],
    epochs: &'a [u16; 64],
    homes: &'a [u8; 64],
    marks: &'a [u8; 64],
    ring_slots: &'a [u16; 128],
    ring_epochs: &'a [u16; 128],
    small: Small,
) -> Answer
    ensures { Crossed result (λ got. AnswersLent states epochs homes marks ring_slots ring_epochs small got block_events_reply) }
{
    let t = TasksRef {
        small: &small,
        states,
        epochs,
        homes,
        marks,
        ring_slots,
        ring_epochs,
    };
    numbers::answer_of(tasks_lent::block_events_at(t))
}

#[unsafe(no_mangle)]
pub extern "C" fn bredumalt_tasks_live_count_at<'a>(
    states: &'a [u8; 64],
    epochs: &'a [u16; 64],
    homes: &'a [u8; 64],
    marks: &'a [u8; 64],
    ring_slots: &'a [u16; 128],
    ring_epochs: &'a [u16; 128],
    small: Small,
) -> Answer
    ensures { Crossed result (λ got. AnswersLent states epochs homes marks ring_slots ring_epochs small got live_count_reply) }
{
    let t = TasksRef {
        small: &small,
        states,
        epochs,
        homes,
        marks,
        ring_slots,
        ring_epochs,
    };
    numbers::answer_of(tasks_lent::live_count_at(t))
}

#[unsafe(no_mangle)]
pub extern "C" fn bredumalt_tasks_peak_slots_at<'a>(
    states: &'a [u8; 64],
    epochs: &'a [u16; 64],
    homes: &'a [u8; 64],
    marks: &'a [u8; 64],
    ring_slots: &'a [u16; 128],
    ring_epochs: &'a [u16; 128],
    small: Small,
) -> Answer
    ensures { Crossed result (λ got. AnswersLent states epochs homes marks ring_slots ring_epochs small got peak_reply) }
{
    let t = TasksRef {
        small: &small,
        states,
        epochs,
        homes,
        marks,
        ring_slots,
        ring_epochs,
    };
    numbers::answer_of(tasks_lent::peak_slots_at(t))
}
