// The same in writing, for output that is compared as a whole with a stored one: a write that fails is let go, and what comes after it
// is written all the same.
use crate::text;
use answers::{Answered, Refusal, State};
use ids::{TaskId, Token};
use switch::Decision;

// What a call may answer, and the fields of a table.
pub trait Say {
    fn say(self, rt: &impl Print);
}

impl Say for bool {
    fn say(self, rt: &impl Print) {
        let _written = print!(rt; " {self}");
    }
}

impl Say for u8 {
    fn say(self, rt: &impl Print) {
        let _written = print!(rt; " {self}");
    }
}

impl Say for u16 {
    fn say(self, rt: &impl Print) {
        let _written = print!(rt; " {self}");
    }
}

impl Say for u32 {
    fn say(self, rt: &impl Print) {
        let _written = print!(rt; " {self}");
    }
}

impl Say for u64 {
    fn say(self, rt: &impl Print) {
        let _written = print!(rt; " {self}");
    }
}

impl Say for usize {
    fn say(self, rt: &impl Print) {
        let _written = print!(rt; " {self}");
    }
}

impl Say for () {
    fn say(self, rt: &impl Print) {
        text(rt, b" ok");
    }
}

impl Say for TaskId {
    fn say(self, rt: &impl Print) {
        let _written = print!(rt; " {}/{}", self.slot, self.epoch);
    }
}

// A word of an output, as it stands.
impl Say for Token {
    fn say(self, rt: &impl Print) {
        self.0.say(rt);
    }
}

impl Say for State {
    fn say(self, rt: &impl Print) {
        let _written = print!(rt; " {self:?}");
    }
}

impl Say for Decision {
    fn say(self, rt: &impl Print) {
        match self {
            Decision::Stay => text(rt, b" stay"),
            Decision::Switch { from, to, release } => {
                from.say(rt);
                to.say(rt);
                release.say(rt);
            }
        }
    }
}

impl<A: Say> Say for Option<A> {
    fn say(self, rt: &impl Print) {
        match self {
            Some(a) => a.say(rt),
            None => text(rt, b" -"),
        }
    }
}

impl<A: Say> Say for Result<A, Refusal> {
    fn say(self, rt: &impl Print) {
        match self {
            Ok(a) => a.say(rt),
            Err(why) => {
                let _written = print!(rt; " !{}", why.number());
            }
        }
    }
}

// Says what a call answered, and hands its table on.
pub fn answered<T: Drop, A: Say>(rt: &impl Print, done: Answered<T, A>) -> T {
    done.answer.say(rt);
    done.table
}
