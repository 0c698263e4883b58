// A line of a script, read: which call it asks for, on which table.
// Its tables of words are looked up by their definitions, and a number that was read is at most its largest value.
#![tactic(auto, using(text::proofs::ReadLaws::number_fits, text::proofs::ReadLaws::same_is), unfolding(text::specs::Text::same, crate::specs::Lines::pick, crate::specs::Lines::with_one, crate::specs::Lines::with_two, crate::specs::Lines::kind_word, crate::specs::Lines::mark_word, crate::specs::Lines::one_word, crate::specs::Lines::two_words, crate::specs::Lines::three_words))]

ghost use Rattle.std.specs.Prelude.{◌≡◌};
ghost use Rattle.model.specs.Calls as task;
ghost use Rattle.runs.specs.Tables.{on_tasks};
ghost use Rattle.lines.specs.Asked.{calls, line_of};
ghost use Rattle.lines.specs.Lines.{with_one, kind_word, mark_word, one_word, two_words, three_words, read_line};

use ids::{TaskId, Token};
use irqwait::Cookie;
use switch::Kind;

// The most bytes of a line, and the largest value of each kind of field. A number is read up to its own largest value, so
// that the casts below lose nothing.
const LONGEST: usize = 80;

const MAX_N: u64 = 65535;

const MAX_CPU: u64 = 255;

const MAX_COOKIE: u64 = 4294967295;

const MAX_TOKEN: u64 = 4294967295;

const MAX_TIME: u64 = 18446744073709551615;

#[derive(Clone, Copy, Debug, PartialEq, Eq, Hash)]
pub enum TaskCall {
    Start,
    Start1,
    Admit(u8),
    Switch(u8, Kind),
    Mark(TaskId, bool),
    Steal(u8),
    Wake(TaskId),
    Collect,
}

#[derive(Clone, Copy, Debug, PartialEq, Eq, Hash)]
pub enum WaitCall {
    Arm(Cookie, TaskId),
    Disarm(TaskId),
    Signal(Cookie),
    Take(TaskId),
}

#[derive(Clone, Copy, Debug, PartialEq, Eq, Hash)]
pub enum DeadlineCall {
    Arm(TaskId, u64),
    Disarm(TaskId),
}

#[derive(Clone, Copy, Debug, PartialEq, Eq, Hash)]
pub enum WakeCall {
    Push(Token),
    Pop,
}

// A poll stands apart: it alone is lent an output.
#[derive(Clone, Copy, Debug, PartialEq, Eq, Hash)]
pub enum Line {
    New(u16),
    Tasks(TaskCall),
    Waits(WaitCall),
    Deadlines(DeadlineCall),
    Poll(u64),
    Wakes(WakeCall),
}

// What a line, without its line feed, asks for, or None where it cannot be read. Spaces are found by their index in the line,
// which is quicker than in what is left of it.
pub fn read(line: &[u8]) -> Option<Line>
    ensures { line_of result ≡ read_line line.now }
{
    if LONGEST < line.len() {
        return None;
    }
    let a = words::until_from(line, 0, b' ');
    if line.len() <= a {
        return one_word(line);
    }
    let b = words::until_from(line, a + 1, b' ');
    if line.len() <= b {
        return two_words(words::head(line, a), words::rest(line, a));
    }
    let c = words::until_from(line, b + 1, b' ');
    if c < line.len() {
        return None;
    }
    let first = words::head(line, a);
    let second = words::part(line, a + 1, b);
    let third = words::rest(line, b);
    three_words(first, second, third)
}

fn one_word(a: &[u8]) -> Option<Line>
    ensures { line_of result ≡ one_word a.now }
{
    if words::same(a, b"start") {
        Some(Line::Tasks(TaskCall::Start))
    } else if words::same(a, b"start1") {
        Some(Line::Tasks(TaskCall::Start1))
    } else if words::same(a, b"collect") {
        Some(Line::Tasks(TaskCall::Collect))
    } else if words::same(a, b"pop") {
        Some(Line::Wakes(WakeCall::Pop))
    } else {
        None
    }
}

fn two_words(a: &[u8], b: &[u8]) -> Option<Line>
    ensures { line_of result ≡ two_words a.now b.now }
{
    if words::same(a, b"new") {
        Some(Line::New(words::number(b, MAX_N)? as u16))
    } else if words::same(a, b"admit") {
        Some(Line::Tasks(TaskCall::Admit(words::number(b, MAX_CPU)? as u8)))
    } else if words::same(a, b"steal") {
        Some(Line::Tasks(TaskCall::Steal(words::number(b, MAX_CPU)? as u8)))
    } else if words::same(a, b"wake") {
        Some(Line::Tasks(TaskCall::Wake(words::id(b)?)))
    } else if words::same(a, b"unirq") {
        Some(Line::Waits(WaitCall::Disarm(words::id(b)?)))
    } else if words::same(a, b"signal") {
        Some(Line::Waits(WaitCall::Signal(Cookie(words::number(b, MAX_COOKIE)? as u32))))
    } else if words::same(a, b"take") {
        Some(Line::Waits(WaitCall::Take(words::id(b)?)))
    } else if words::same(a, b"unpark") {
        Some(Line::Deadlines(DeadlineCall::Disarm(words::id(b)?)))
    } else if words::same(a, b"poll") {
        Some(Line::Poll(words::number(b, MAX_TIME)?))
    } else if words::same(a, b"push") {
        Some(Line::Wakes(WakeCall::Push(Token(words::number(b, MAX_TOKEN)? as u32))))
    } else {
        None
    }
}

fn three_words(a: &[u8], b: &[u8], c: &[u8]) -> Option<Line>
    ensures { line_of result ≡ three_words a.now b.now c.now }
{
    if words::same(a, b"switch") {
        switch_by(words::number(b, MAX_CPU)? as u8, c)
    } else if words::same(a, b"mark") {
        mark_by(words::id(b)?, c)
    } else if words::same(a, b"irq") {
        let cookie = Cookie(words::number(b, MAX_COOKIE)? as u32);
        Some(Line::Waits(WaitCall::Arm(cookie, words::id(c)?)))
    } else if words::same(a, b"park") {
        Some(Line::Deadlines(DeadlineCall::Arm(words::id(b)?, words::number(c, MAX_TIME)?)))
    } else {
        None
    }
}

fn switch_by(cpu: u8, w: &[u8]) -> Option<Line>
    ensures { line_of result ≡ with_one (λ k. calls (on_tasks (task.switch cpu k))) (kind_word w.now) }
{
    if words::same(w, b"yield") {
        Some(Line::Tasks(TaskCall::Switch(cpu, Kind::Yield)))
    } else if words::same(w, b"preempt") {
        Some(Line::Tasks(TaskCall::Switch(cpu, Kind::Preempt)))
    } else if words::same(w, b"block") {
        Some(Line::Tasks(TaskCall::Switch(cpu, Kind::Block)))
    } else if words::same(w, b"exit") {
        Some(Line::Tasks(TaskCall::Switch(cpu, Kind::Exit)))
    } else {
        None
    }
}

fn mark_by(id: TaskId, w: &[u8]) -> Option<Line>
    ensures { line_of result ≡ with_one (λ m. calls (on_tasks (task.mark id m))) (mark_word w.now) }
{
    if words::same(w, b"yes") {
        Some(Line::Tasks(TaskCall::Mark(id, true)))
    } else if words::same(w, b"no") {
        Some(Line::Tasks(TaskCall::Mark(id, false)))
    } else {
        None
    }
}
