// A script, run: lines are read, played on the four tables and answered into a lent buffer, as many as it has room for. The tables stay
// where they are: each line's call is lent the one that it is about.
#![tactic(auto)]

ghost use Rattle.std.specs.Prelude.{◌≡◌, ◌≤◌, ◌+◌, length};
ghost use Rattle.model.specs.Calls as task;
ghost use Rattle.memory.specs.View as tasks_kind;
ghost use Rattle.irqwait.specs.Calls as wait;
ghost use Rattle.irqwait.specs.Waits as waits_kind;
ghost use Rattle.parktime.specs.Calls as deadline;
ghost use Rattle.parktime.specs.Deadlines as deadlines_kind;
ghost use Rattle.wake.specs.Calls as token;
ghost use Rattle.wake.specs.Queue as wakes_kind;
ghost use Rattle.runs.specs.Outcomes.{AllSound};
ghost use Rattle.runs.specs.Tables.{on_deadlines};
ghost use Rattle.lines.specs.Asked.{task_call, wait_call, deadline_call, wake_call, line_of, afresh, calls, poll_at};
ghost use Rattle.output.specs.Output.{INPUT};
ghost use Rattle.output.specs.Places.{Played, Plays, Filled};
ghost use Rattle.place.specs.Here.{tables_of};
ghost use Rattle.script.specs.Spots.{Stands};

use answers::Refusal;
use irqwait::WaitTable;
use lines::{DeadlineCall, Line, TaskCall, WaitCall, WakeCall};
use memory::{Tasks, lend};
use parktime::Table;
use place::Place;
use wake::WakeQueue;

// Room for the longest line of output.
const ROOM: usize = 256;

// WHAT A LINE ASKS OF ONE TABLE: the call, and its answer as line `number` of the output, which is written from `at` on

fn on_tasks(t: &mut Tasks, call: TaskCall, number: u64, out: &mut [u8], at: usize) -> usize
    requires sound { tasks_kind.Sound t.old }
    requires room { at + 256 ≤ length out.old }
    ensures { Played tasks_kind.table (task.step (tasks_kind.view t.old) (task_call call)) t.new number out.old at result out.new }
{
    match call {
        TaskCall::Start => print::line(out, at, number, moves::start_in(lend!(t))),
        TaskCall::Start1 => print::line(out, at, number, moves::start_cpu_in(lend!(t), 1)),
        TaskCall::Admit(cpu) => print::line(out, at, number, moves::admit_on_in(lend!(t), cpu)),
        TaskCall::Switch(cpu, kind) => {
            let answer = switch::switch_on_in(lend!(t), cpu, kind);
            print::line(out, at, number, answer)
        }
        TaskCall::Mark(id, mark) => {
            let answer = moves::set_stealeable_in(lend!(t), id, mark);
            print::line(out, at, number, answer)
        }
        TaskCall::Steal(cpu) => {
            let answer = steal::try_steal_into_in(lend!(t), cpu);
            print::line(out, at, number, answer)
        }
        TaskCall::Wake(id) => print::line(out, at, number, moves::wake_in(lend!(t), id)),
        TaskCall::Collect => print::line(out, at, number, moves::collect_in(lend!(t))),
    }
}

fn on_waits(t: &mut WaitTable, call: WaitCall, number: u64, out: &mut [u8], at: usize) -> usize
    requires sound { waits_kind.Sound t.old }
    requires room { at + 256 ≤ length out.old }
    ensures { Played waits_kind.waits (wait.step (waits_kind.view t.old) (wait_call call)) t.new number out.old at result out.new }
{
    let pending = &mut t.pending;
    let slots = &mut t.pending_slots;
    let epochs = &mut t.pending_epochs;
    let waiters = &mut t.waiters;
    match call {
        WaitCall::Arm(cookie, id) => {
            let answer = irqwait::arm_in(pending, slots, epochs, waiters, cookie, id);
            print::line(out, at, number, answer)
        }
        WaitCall::Disarm(id) => {
            let answer = irqwait::disarm_task_in(pending, slots, epochs, waiters, id);
            print::line(out, at, number, answer)
        }
        WaitCall::Signal(cookie) => {
            let answer = irqwait::signal_in(pending, slots, epochs, waiters, cookie);
            print::line(out, at, number, answer)
        }
        WaitCall::Take(id) => {
            let answer = irqwait::take_pending_in(pending, slots, epochs, waiters, id);
            print::line(out, at, number, answer)
        }
    }
}

fn on_deadlines(t: &mut Table, call: DeadlineCall, number: u64, out: &mut [u8], at: usize) -> usize
    requires sound { deadlines_kind.Sound t.old }
    requires room { at + 256 ≤ length out.old }
    ensures { Played deadlines_kind.deadlines (deadline.step (deadlines_kind.view t.old) (deadline_call call)) t.new number out.old at result out.new }
{
    match call {
        DeadlineCall::Arm(id, deadline) => print::line(out, at, number, t.arm_in(id, deadline)),
        DeadlineCall::Disarm(id) => print::line(out, at, number, t.disarm_in(id)),
    }
}

fn on_wakes(t: &mut WakeQueue, call: WakeCall, number: u64, out: &mut [u8], at: usize) -> usize
    requires sound { wakes_kind.Sound t.old }
    requires room { at + 256 ≤ length out.old }
    ensures { Played wakes_kind.wakes (token.step (wakes_kind.view t.old) (wake_call call)) t.new number out.old at result out.new }
{
    match call {
        WakeCall::Push(token) => {
            let answer = wake::push_in(&mut t.tokens, &mut t.ends, token);
            print::line(out, at, number, answer)
        }
        WakeCall::Pop => {
            let answer = wake::pop_in(&mut t.tokens, &mut t.ends);
            print::line(out, at, number, answer)
        }
    }
}

// WHATEVER A LINE ASKS

// All tables afresh, if the size is listed.
fn renew(here: &mut Place, n: u16, out: &mut [u8]) -> usize
    requires sound { AllSound (tables_of here.old) }
    requires room { here.old.used + 256 ≤ length out.old }
    ensures { Stands here.old here.new × Plays (tables_of here.old) (afresh n) (tables_of here.new) here.old.number out.old here.old.used result out.new }
{
    let made = memory::new_at(lend!(here.tasks), n as usize);
    if let Err(why) = made {
        return print::line::<()>(out, here.used, here.number, Err(why));
    }
    here.waits = WaitTable::new();
    here.deadlines = Table::new();
    here.wakes = WakeQueue::new(32).table;
    print::line(out, here.used, here.number, Ok(()))
}

// A poll is lent an output of sixteen places.
fn poll(here: &mut Place, now: u64, out: &mut [u8]) -> usize
    requires sound { AllSound (tables_of here.old) }
    requires room { here.old.used + 256 ≤ length out.old }
    ensures { Stands here.old here.new × Plays (tables_of here.old) (calls (on_deadlines (poll_at now))) (tables_of here.new) here.old.number out.old here.old.used result out.new }
{
    let mut raws = [0u32; 16];
    let answer = here.deadlines.poll_in(now, &mut raws);
    print::polled_line(out, here.used, here.number, answer, &raws)
}

// Plays line `number` and writes its answer behind what is used of the buffer. Gives how much is used then.
fn play(here: &mut Place, line: Option<Line>, out: &mut [u8]) -> usize
    requires sound { AllSound (tables_of here.old) }
    requires room { here.old.used + 256 ≤ length out.old }
    ensures { Stands here.old here.new × Plays (tables_of here.old) (line_of line) (tables_of here.new) here.old.number out.old here.old.used result out.new }
{
    let at = here.used;
    let number = here.number;
    let Some(line) = line else {
        return print::line::<()>(out, at, number, Err(Refusal::BadLine));
    };
    match line {
        Line::New(n) => renew(here, n, out),
        Line::Tasks(call) => on_tasks(&mut here.tasks, call, number, out, at),
        Line::Waits(call) => on_waits(&mut here.waits, call, number, out, at),
        Line::Deadlines(call) => on_deadlines(&mut here.deadlines, call, number, out, at),
        Line::Poll(now) => poll(here, now, out),
        Line::Wakes(call) => on_wakes(&mut here.wakes, call, number, out, at),
    }
}

// Answers lines while the buffer has room for one more.
pub fn chunk(input: &[u8], here: &mut Place, out: &mut [u8])
    requires at_in_bounds { here.old.at ≤ length input.now }
    requires number_le_at { here.old.number ≤ here.old.at }
    requires input_len_bound { length input.now ≤ INPUT }
    requires in_bounds { 256 ≤ length out.old }
    requires all_sound { AllSound (tables_of here.old) }
    ensures { Filled input.now (tables_of here.old) here.old.number here.old.at (tables_of here.new) here.new.number here.new.at here.new.used out.new }
{
    here.used = 0;
    while here.at < input.len() && ROOM <= out.len() - here.used {
        let ahead = place::next_line(input, here.at);
        here.at = ahead.at;
        here.number += 1;
        here.used = play(here, ahead.line, out);
    }
}
