// What no clause can say: the text of each answer, and what becomes of a write that fails.
use super::{Say, answered, end, lossy, text};
use answers::{Answered, Refusal, State};
use ids::{TaskId, Token};
use std::alloc::Global;
use std::cell::{Cell, RefCell};
use std::fmt::Display;
use std::io;
use std::test::Fail;
use switch::Decision;

// Keeps what is written on it, but for one write, counted from 0, that fails.
#[derive(Drop)]
struct Paper {
    fails: Option<u32>,
    tried: Cell<u32>,
    text: RefCell<String>,
    alloc: Global,
}

impl Paper {
    fn new(alloc: Global, fails: Option<u32>) -> Paper {
        Paper {
            fails,
            tried: Cell::new(0),
            text: RefCell::new(String::new(alloc)),
            alloc,
        }
    }

    fn write(&self, s: &str) -> io::Result<()> {
        let n = self.tried.get();
        self.tried.set(n.saturating_add(1));
        if self.fails == Some(n) {
            return Err(io::ErrorKind::BrokenPipe.into());
        }
        self.text.try_borrow_mut()?.push_str(s)?;
        Ok(())
    }

    fn says(&self, s: &str) -> io::Result<bool> {
        Ok(self.text.try_borrow()?.as_str() == s)
    }

    fn begins(&self, s: &str) -> io::Result<bool> {
        Ok(s.starts_with(self.text.try_borrow()?.as_str()))
    }
}

impl Print for Paper {
    fn print<D: Display + Drop>(&self, value: D) -> io::Result<()> {
        let s = format!(in self.alloc; "{value}")?;
        self.write(s.as_str())
    }

    fn println<D: Display + Drop>(&self, value: D) -> io::Result<()> {
        let s = format!(in self.alloc; "{value}\n")?;
        self.write(s.as_str())
    }

    fn write_all(&self, bytes: &[u8]) -> io::Result<()> {
        match str::from_utf8(bytes) {
            Ok(s) => self.write(s),
            Err(_) => Err(io::ErrorKind::InvalidData.into()),
        }
    }
}

// Whether both forms write this of an answer; and whether, with each of its writes failing in turn, `Say` tells of that, after what
// comes before it and with nothing after it, while the lossy form makes every write.
fn writes<A: Say + lossy::Say + Copy>(alloc: Global, a: A, want: &str) -> io::Result<bool> {
    let told = Paper::new(alloc, None);
    Say::say(a, &told)?;
    let let_go = Paper::new(alloc, None);
    lossy::Say::say(a, &let_go);
    let all = told.tried.get();
    let mut holds = all != 0 && told.says(want)? && let_go.says(want)?;
    for at in 0..all {
        let told = Paper::new(alloc, Some(at));
        holds &= is_broken(Say::say(a, &told)) && told.tried.get() == at + 1 && told.begins(want)?;
        let let_go = Paper::new(alloc, Some(at));
        lossy::Say::say(a, &let_go);
        holds &= let_go.tried.get() == all;
    }
    Ok(holds)
}

fn is_broken<T: Drop>(said: io::Result<T>) -> bool {
    said.is_err_and(|e| e.kind() == io::ErrorKind::BrokenPipe)
}

const FROM: TaskId = TaskId { slot: 2, epoch: 9 };

const TO: TaskId = TaskId { slot: 0, epoch: 0 };

#[test]
fn answers_are_written(rt: HostRuntime) -> Result<(), Fail> {
    let a = rt.alloc();
    assert!(rt; writes(a, true, " true")?);
    assert!(rt; writes(a, false, " false")?);
    assert!(rt; writes(a, 0u8, " 0")? && writes(a, u8::MAX, " 255")?);
    assert!(rt; writes(a, 0u16, " 0")? && writes(a, u16::MAX, " 65535")?);
    assert!(rt; writes(a, 0u32, " 0")? && writes(a, u32::MAX, " 4294967295")?);
    assert!(rt; writes(a, 0u64, " 0")? && writes(a, u64::MAX, " 18446744073709551615")?);
    assert!(rt; writes(a, 0usize, " 0")? && writes(a, usize::MAX, " 18446744073709551615")?);
    assert!(rt; writes(a, (), " ok")?);
    assert!(rt; writes(a, FROM, " 2/9")?);
    assert!(rt; writes(a, Token(131081), " 131081")?);
    assert!(rt; writes(a, State::Empty, " Empty")?);
    assert!(rt; writes(a, State::Ready, " Ready")?);
    assert!(rt; writes(a, State::Running, " Running")?);
    assert!(rt; writes(a, State::Blocked, " Blocked")?);
    assert!(rt; writes(a, Decision::Stay, " stay")?);
    for (release, want) in [(Some(FROM), " 2/9 0/0 2/9"), (None, " 2/9 0/0 -")] {
        let switch = Decision::Switch {
            from: FROM,
            to: TO,
            release,
        };
        assert!(rt; writes(a, switch, want)?);
    }
    assert!(rt; writes(a, None::<TaskId>, " -")?);
    assert!(rt; writes(a, Ok::<Option<Token>, Refusal>(Some(Token(1))), " 1")?);
    assert!(rt; writes(a, Err::<(), Refusal>(Refusal::BadTable), " !1")?);
    assert!(rt; writes(a, Err::<(), Refusal>(Refusal::TooLong), " !13")?);
    Ok(())
}

// Each of the three writes of a switch failing in turn: `answered` tells of it, makes none after it and hands no table on; the lossy one
// makes all three and hands the table on.
#[test]
fn failed_writes(rt: HostRuntime) -> Result<(), Fail> {
    for at in 0..3u32 {
        let release = None;
        let answer = Ok::<Decision, Refusal>(Decision::Switch {
            from: FROM,
            to: TO,
            release,
        });
        let paper = Paper::new(rt.alloc(), Some(at));
        let told = answered(&paper, Answered { table: 7u8, answer });
        assert!(rt; is_broken(told), "at {at}");
        assert_eq!(rt; paper.tried.get(), at + 1, "at {at}");
        let paper = Paper::new(rt.alloc(), Some(at));
        assert_eq!(rt;
            lossy::answered(&paper, Answered { table: 7u8, answer }),
            7,
            "at {at}"
        );
        assert_eq!(rt; paper.tried.get(), 3, "at {at}");
    }
    let answer = Ok::<(), Refusal>(());
    let paper = Paper::new(rt.alloc(), None);
    assert_eq!(rt; answered(&paper, Answered { table: 7u8, answer })?, 7);
    assert!(rt; paper.says(" ok")?);
    Ok(())
}

// `text` and `end` write, and let a failed write go.
#[test]
fn texts(rt: HostRuntime) -> Result<(), Fail> {
    for (fails, want) in [(None, "a\n"), (Some(0), "\n"), (Some(1), "a")] {
        let paper = Paper::new(rt.alloc(), fails);
        text(&paper, b"a");
        end(&paper);
        assert!(rt; paper.says(want)?, "{want}");
    }
    Ok(())
}
