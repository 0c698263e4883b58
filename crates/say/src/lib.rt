// What the calls answer, in writing: each answer after a space, a refusal by its number. `Say` and `answered` tell a caller of a write
// that failed, and make none after it; `lossy`, `text` and `end` let it go.
#![tactic(auto)]

use answers::{Answered, Refusal, State};
use ids::{TaskId, Token};
use std::io;
use switch::Decision;

pub mod lossy;

// What a call may answer, and the fields of a table.
pub trait Say {
    fn say(self, rt: &impl Print) -> io::Result<()>;
}

impl Say for bool {
    fn say(self, rt: &impl Print) -> io::Result<()> {
        print!(rt; " {self}")
    }
}

impl Say for u8 {
    fn say(self, rt: &impl Print) -> io::Result<()> {
        print!(rt; " {self}")
    }
}

impl Say for u16 {
    fn say(self, rt: &impl Print) -> io::Result<()> {
        print!(rt; " {self}")
    }
}

impl Say for u32 {
    fn say(self, rt: &impl Print) -> io::Result<()> {
        print!(rt; " {self}")
    }
}

impl Say for u64 {
    fn say(self, rt: &impl Print) -> io::Result<()> {
        print!(rt; " {self}")
    }
}

impl Say for usize {
    fn say(self, rt: &impl Print) -> io::Result<()> {
        print!(rt; " {self}")
    }
}

impl Say for () {
    fn say(self, rt: &impl Print) -> io::Result<()> {
        print!(rt; " ok")
    }
}

impl Say for TaskId {
    fn say(self, rt: &impl Print) -> io::Result<()> {
        print!(rt; " {}/{}", self.slot, self.epoch)
    }
}

// A word of an output, as it stands.
impl Say for Token {
    fn say(self, rt: &impl Print) -> io::Result<()> {
        self.0.say(rt)
    }
}

impl Say for State {
    fn say(self, rt: &impl Print) -> io::Result<()> {
        print!(rt; " {self:?}")
    }
}

impl Say for Decision {
    fn say(self, rt: &impl Print) -> io::Result<()> {
        match self {
            Decision::Stay => print!(rt; " stay"),
            Decision::Switch { from, to, release } => {
                from.say(rt)?;
                to.say(rt)?;
                release.say(rt)
            }
        }
    }
}

impl<A: Say> Say for Option<A> {
    fn say(self, rt: &impl Print) -> io::Result<()> {
        match self {
            Some(a) => a.say(rt),
            None => print!(rt; " -"),
        }
    }
}

impl<A: Say> Say for Result<A, Refusal> {
    fn say(self, rt: &impl Print) -> io::Result<()> {
        match self {
            Ok(a) => a.say(rt),
            Err(why) => print!(rt; " !{}", why.number()),
        }
    }
}

// Says what a call answered, and hands its table on.
pub fn answered<T: Drop, A: Say>(rt: &impl Print, done: Answered<T, A>) -> io::Result<T> {
    done.answer.say(rt)?;
    Ok(done.table)
}

// Here a failed write is let go; `rt.write_all(s)` itself tells of it, and so does `println!(rt)` for `end`.
pub fn text(rt: &impl Print, s: &[u8]) {
    let _written = rt.write_all(s);
}

pub fn end(rt: &impl Print) {
    let _written = println!(rt);
}

#[cfg(test)]
mod tests;
