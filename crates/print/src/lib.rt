// Answers as text, in a buffer that the caller lends. Each function writes from the index `at` on, and returns the index after
// what it wrote.
#![tactic(auto)]

ghost use Rattle.std.specs.Prelude.{[], ◌++◌, ◌≤◌, ◌<◌, ◌+◌, length, take, option_map};
ghost use Rattle.answers.specs.Reply.{Reply, done, told, named, value};
ghost use Rattle.answers.specs.Answers.{refusal_no, reply, count_reply};
ghost use Rattle.switch.specs.Decisions.{decided};
ghost use Rattle.text.specs.Text.{bytes};
ghost use Rattle.text.specs.Print.{two_digits, Wrote};
ghost use Rattle.text.specs.Print.{decimal as Print·decimal};
ghost use Rattle.print.specs.Texts.{id_text, id_or_none, ids_text, answer_text, line_text};

use answers::{Refusal, Says};
use ids::{TaskId, Token};
use switch::Decision;

pub fn text(out: &mut [u8], at: usize, s: &[u8]) -> usize
    requires { at + length s.now ≤ length out.old }
    ensures { Wrote out.old at s.now result out.new }
{
    let end = at + s.len();
    out[at..end].copy_from_slice(s);
    end
}

// A number below a hundred, whatever its size.
fn two(out: &mut [u8], at: usize, n: u64) -> usize
    requires n_bound { n < 100 }
    requires at_in_bounds { at + 2 ≤ length out.old }
    ensures { Wrote out.old at (two_digits n) result out.new }
{
    text(out, at, &[b'0' + (n / 10) as u8, b'0' + (n % 10) as u8])
}

// The digits of a hundredth of the number, then its last two: half as many calls as one digit at a time. Most numbers are short: they
// take no call but this one.
#[tactic(auto, using(crate::proofs::Laws::lengths))]
pub fn decimal(out: &mut [u8], at: usize, n: u64) -> usize
    requires { at + length (Print·decimal n) ≤ length out.old }
    ensures { Wrote out.old at (Print·decimal n) result out.new }
{
    if n < 10 {
        text(out, at, &[b'0' + n as u8])
    } else if n < 100 {
        two(out, at, n)
    } else {
        let tens = decimal(out, at, n / 100);
        two(out, tens, n % 100)
    }
}

#[tactic(auto, using(crate::proofs::Laws::lengths), unfolding(crate::specs::Texts::id_text))]
pub fn id(out: &mut [u8], at: usize, i: TaskId) -> usize
    requires { at + length (id_text i) ≤ length out.old }
    ensures { Wrote out.old at (id_text i) result out.new }
{
    let slash = decimal(out, at, i.slot as u64);
    let epoch = text(out, slash, b"/");
    decimal(out, epoch, i.epoch as u64)
}

// An id that is not the first word of its line.
#[tactic(auto, using(crate::proofs::Laws::lengths))]
fn spaced(out: &mut [u8], at: usize, i: TaskId) -> usize
    requires { at + 1 + length (id_text i) ≤ length out.old }
    ensures { Wrote out.old at (bytes " " ++ id_text i) result out.new }
{
    let e = text(out, at, b" ");
    id(out, e, i)
}

fn refusal(out: &mut [u8], at: usize, why: Refusal) -> usize
    requires { at + length (Print·decimal (refusal_no why)) ≤ length out.old }
    ensures { Wrote out.old at (Print·decimal (refusal_no why)) result out.new }
{
    decimal(out, at, why.number() as u64)
}

// An id, or - where there is none.
fn id_or_none(out: &mut [u8], at: usize, i: Option<TaskId>) -> usize
    requires { at + length (id_or_none i) ≤ length out.old }
    ensures { Wrote out.old at (id_or_none i) result out.new }
{
    match i {
        Some(i) => id(out, at, i),
        None => text(out, at, b"-"),
    }
}

// What a call answers where it does not refuse.
pub trait Say: Says {
    // Writes 0 and the answer.
    fn put(self, out: &mut [u8], at: usize) -> usize
        requires { at + length (answer_text (Self.says self) []) ≤ length out.old }
        ensures { Wrote out.old at (answer_text (Self.says self) []) result out.new };
}

#[tactic(auto, unfolding(crate::specs::Texts::answer_text))]
impl Say for () {
    fn put(self, out: &mut [u8], at: usize) -> usize {
        text(out, at, b"0 ok")
    }
}

#[tactic(auto, unfolding(crate::specs::Texts::answer_text))]
impl Say for bool {
    fn put(self, out: &mut [u8], at: usize) -> usize {
        if self {
            text(out, at, b"0 true")
        } else {
            text(out, at, b"0 false")
        }
    }
}

#[tactic(auto, unfolding(crate::specs::Texts::answer_text))]
impl Say for Option<TaskId> {
    fn put(self, out: &mut [u8], at: usize) -> usize {
        let e = text(out, at, b"0 ");
        id_or_none(out, e, self)
    }
}

#[tactic(auto, unfolding(crate::specs::Texts::answer_text))]
impl Say for Option<Token> {
    fn put(self, out: &mut [u8], at: usize) -> usize {
        match self {
            Some(token) => {
                let e = text(out, at, b"0 ");
                decimal(out, e, token.0 as u64)
            }
            None => text(out, at, b"0 -"),
        }
    }
}

#[tactic(auto, unfolding(crate::specs::Texts::answer_text))]
impl Say for Decision {
    fn put(self, out: &mut [u8], at: usize) -> usize {
        match self {
            Decision::Stay => text(out, at, b"0 stay"),
            Decision::Switch { from, to, release } => {
                let e = text(out, at, b"0 ");
                let f = id(out, e, from);
                let g = spaced(out, f, to);
                let h = text(out, g, b" ");
                id_or_none(out, h, release)
            }
        }
    }
}

// Writes an answer: the refusal number, or 0 and what the call says.
#[tactic(auto, unfolding(crate::specs::Texts::answer_text))]
pub fn reply<A: Say>(out: &mut [u8], at: usize, a: Result<A, Refusal>) -> usize
    requires { at + length (answer_text (reply A.says a) []) ≤ length out.old }
    ensures { Wrote out.old at (answer_text (reply A.says a) []) result out.new }
{
    match a {
        Ok(answer) => answer.put(out, at),
        Err(why) => refusal(out, at, why),
    }
}

// The first k of the ids, or all where there are fewer, each after a space.
fn listing(out: &mut [u8], at: usize, k: u64, raws: &[u32]) -> usize
    requires { at + length (ids_text (take k raws.now)) ≤ length out.old }
    ensures { Wrote out.old at (ids_text (take k raws.now)) result out.new }
{
    let mut end = at;
    for raw in raws.iter().take(k as usize) {
        end = spaced(out, end, TaskId::from_raw(Token(*raw)));
    }
    end
}

// Writes the answer to a poll, with the ids that it wrote into `raws`.
#[tactic(auto, unfolding(crate::specs::Texts::answer_text))]
pub fn polled(out: &mut [u8], at: usize, a: Result<u64, Refusal>, raws: &[u32]) -> usize
    requires { at + length (answer_text (count_reply a) raws.now) ≤ length out.old }
    ensures { Wrote out.old at (answer_text (count_reply a) raws.now) result out.new }
{
    match a {
        Ok(k) => {
            let e = text(out, at, b"0 ");
            let f = decimal(out, e, k);
            listing(out, f, k, raws)
        }
        Err(why) => refusal(out, at, why),
    }
}

// The line that answers line n of a script. No line is longer than 256 bytes.
#[tactic(auto, using(crate::proofs::Laws::lengths), unfolding(crate::specs::Texts::line_text))]
pub fn line<A: Say>(out: &mut [u8], at: usize, n: u64, a: Result<A, Refusal>) -> usize
    requires { at + 256 ≤ length out.old }
    ensures { Wrote out.old at (line_text n (reply A.says a) []) result out.new }
{
    let e = decimal(out, at, n);
    let f = text(out, e, b" ");
    let g = reply(out, f, a);
    text(out, g, b"\n")
}

// Likewise, of a poll.
#[tactic(auto, using(crate::proofs::Laws::lengths), unfolding(crate::specs::Texts::line_text))]
pub fn polled_line(
    out: &mut [u8],
    at: usize,
    n: u64,
    a: Result<u64, Refusal>,
    raws: &[u32],
) -> usize
    requires at_in_bounds { at + 256 ≤ length out.old }
    requires raws_len_bound { length raws.now ≤ 16 }
    ensures { Wrote out.old at (line_text n (count_reply a) raws.now) result out.new }
{
    let e = decimal(out, at, n);
    let f = text(out, e, b" ");
    let g = polled(out, f, a, raws);
    text(out, g, b"\n")
}
