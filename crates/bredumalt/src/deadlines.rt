// The calls on the deadlines, which go in and come back as one value.
ghost use Rattle.answers.specs.Reply.{done};
ghost use Rattle.answers.specs.Contract.{Makes, Meets, lent};
ghost use Rattle.parktime.specs.Deadlines.{view, Sound, deadlines};
ghost use Rattle.parktime.specs.Steps.{new_step, arm_step, disarm_step, poll_step};
ghost use Rattle.numbers.specs.Numbers.{Crossed};
ghost use Rattle.bredumalt.specs.Named.{TellsByte};

use ids::TaskId;
use numbers::Answer;
use parktime::Table;

// The deadlines, beside what the call answers.
#[repr(C)]
#[derive(Clone, Copy)]
pub struct DeadlinesAnswer {
    pub table: Table,
    pub answer: Answer,
}

#[unsafe(no_mangle)]
pub extern "C" fn bredumalt_parktime_new_at() -> Table
    ensures { Makes deadlines result done new_step }
{
    Table::new()
}

// 1 where the table is sound, else 0.
#[unsafe(no_mangle)]
pub extern "C" fn bredumalt_parktime_sound_at(table: Table) -> u8
    ensures { TellsByte result (Sound table) }
{
    memory::flag(table.sound())
}

#[unsafe(no_mangle)]
pub extern "C" fn bredumalt_parktime_arm_at(
    table: Table,
    task: TaskId,
    deadline: u64,
) -> DeadlinesAnswer
    ensures { Crossed result.answer (λ got. Meets deadlines table result.table got (arm_step (view table) task deadline)) }
{
    let done = table.arm(task, deadline);
    DeadlinesAnswer {
        table: done.table,
        answer: numbers::answer_of(done.answer),
    }
}

#[unsafe(no_mangle)]
pub extern "C" fn bredumalt_parktime_disarm_at(table: Table, task: TaskId) -> DeadlinesAnswer
    ensures { Crossed result.answer (λ got. Meets deadlines table result.table got (disarm_step (view table) task)) }
{
    let done = table.disarm(task);
    DeadlinesAnswer {
        table: done.table,
        answer: numbers::answer_of(done.answer),
    }
}

// A slice crosses as a pointer and a length.
#[unsafe(no_mangle)]
pub extern "C" fn bredumalt_parktime_poll_at(
    table: Table,
    now: u64,
    out: &mut [u32],
) -> DeadlinesAnswer
    ensures { Crossed result.answer (λ got. Meets (lent deadlines) (table, out.old) (result.table, out.new) got (poll_step (view table, out.old) now)) }
{
    let done = table.poll(now, out);
    DeadlinesAnswer {
        table: done.table,
        answer: numbers::answer_of(done.answer),
    }
}
