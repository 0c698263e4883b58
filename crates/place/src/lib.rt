// How far a script has come: where it begins, its next line, its last line of output.
#![tactic(auto)]

ghost use Rattle.std.specs.Prelude.{◌≡◌, ◌≤◌, ◌<◌, ◌+◌, ◌-◌, ltb, length, drop};
ghost use Rattle.runs.specs.Tables.{fresh};
ghost use Rattle.runs.specs.Outcomes.{AllSound, view};
ghost use Rattle.text.specs.Print.{Wrote};
ghost use Rattle.lines.specs.Asked.{line_of};
ghost use Rattle.output.specs.Output.{TASKS, TOKENS, INPUT, HEADER, REFUSAL, field, end_text};
ghost use Rattle.output.specs.Places.{Next};
ghost use Rattle.place.specs.Here.{tables_of};

use answers::Refusal;
use irqwait::WaitTable;
use lines::Line;
use memory::Tasks;
use parktime::Table;
use wake::WakeQueue;

// The most bytes of a script.
pub const INPUT_MOST: usize = 65536;

// How far a script has come: the index of the next line, the lines read, how much of the buffer is used, and the tables.
#[derive(Clone, Copy)]
pub struct Place {
    pub at: usize,
    pub number: u64,
    pub used: usize,
    pub tasks: Tasks,
    pub waits: WaitTable,
    pub deadlines: Table,
    pub wakes: WakeQueue,
}

// A line that was read, and the index after it.
#[derive(Clone, Copy)]
pub struct Ahead {
    pub line: Option<Line>,
    pub at: usize,
}

// Fresh tables of 57 slots and 32 places for tokens.
pub fn begin() -> Place
    ensures { (result.at ≡ 0) × (result.number ≡ 0) × (view (tables_of result) ≡ fresh TASKS TOKENS) × AllSound (tables_of result) }
{
    Place {
        at: 0,
        number: 0,
        used: 0,
        tasks: Tasks::new(57).table,
        waits: WaitTable::new(),
        deadlines: Table::new(),
        wakes: WakeQueue::new(32).table,
    }
}

// The first line.
pub fn header(out: &mut [u8]) -> usize
    requires { 256 ≤ length out.old }
    ensures { Wrote out.old 0 HEADER result out.new }
{
    print::text(out, 0, b"events 1\n")
}

// The answer to a script that is too long, after which nothing follows.
pub fn refusal(out: &mut [u8]) -> usize
    requires { 256 ≤ length out.old }
    ensures { Wrote out.old 0 REFUSAL result out.new }
{
    let answer: Result<(), Refusal> = Err(Refusal::TooLong);
    print::line(out, 0, 0, answer)
}

// Whether a script of n bytes is refused with 13.
pub fn too_long(n: usize) -> bool
    ensures { result ≡ ltb INPUT n }
{
    INPUT_MOST < n
}

// What stands from an index on.
fn tail(l: &[u8], at: usize) -> &[u8]
    requires { at ≤ length l.now }
    ensures { result.now ≡ drop at l.now }
{
    &l[at..]
}

// Reads the line at an index.
pub fn next_line(input: &[u8], at: usize) -> Ahead
    requires { at < length input.now }
    ensures { Next input.now at (line_of result.line) result.at }
{
    let rest = tail(input, at);
    let e = words::until(rest, b'\n');
    let line = lines::read(words::head(rest, e));
    if at + e < input.len() {
        return Ahead {
            line,
            at: at + e + 1,
        };
    }
    Ahead {
        line,
        at: input.len(),
    }
}

// A number after a space.
fn spaced(out: &mut [u8], at: usize, v: u64) -> usize
    requires { at + 21 ≤ length out.old }
    ensures { Wrote out.old at (field v) result out.new }
{
    let e = print::text(out, at, b" ");
    print::decimal(out, e, v)
}

// The occupied slots but two, or none.
fn agents(live: u32) -> u32
    ensures { result ≡ live - 2 }
{
    live.saturating_sub(2)
}

// The last line: lines read, occupied slots, agents, peak.
pub fn finish(out: &mut [u8], place: &Place) -> usize
    requires in_bounds { 256 ≤ length out.old }
    requires all_sound { AllSound (tables_of place.now) }
    ensures { Wrote out.old 0 (end_text place.now.number (view (tables_of place.now))) result out.new }
{
    let small = &place.tasks.small;
    let peak = small.peak as u64;
    let live = scans::occupied(&place.tasks.states, small.n);
    let others = agents(live);
    let a = print::text(out, 0, b"end");
    let b = spaced(out, a, place.number);
    let c = spaced(out, b, live as u64);
    let d = spaced(out, c, others as u64);
    let e = spaced(out, d, peak);
    print::text(out, e, b"\n")
}
