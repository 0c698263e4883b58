// What a supervisor may do, for every idle flag and every state.
use answers::State;

fn reap(rt: &impl Print, is_idle: bool, target: Option<State>) {
    match lifecycle::reap(is_idle, target) {
        Ok(()) => say::text(rt, b" Cancel"),
        Err(why) => {
            let _written = print!(rt; " {why:?}");
        }
    }
}

fn force(rt: &impl Print, is_idle: bool, target: Option<State>) {
    match lifecycle::force(is_idle, target) {
        Ok(how) => {
            let _written = print!(rt; " {how:?}");
        }
        Err(why) => {
            let _written = print!(rt; " {why:?}");
        }
    }
}

// Both verdicts by either idle flag, and the one that asks for none.
fn verdicts(rt: &impl Print, target: Option<State>) {
    for is_idle in [false, true] {
        reap(rt, is_idle, target);
    }
    for is_idle in [false, true] {
        force(rt, is_idle, target);
    }
    let _written = print!(rt; " {:?}", lifecycle::cancel(target));
}

pub fn every_state(rt: &impl Print) {
    say::text(rt, b"life");
    verdicts(rt, None);
    for state in [State::Empty, State::Ready, State::Running, State::Blocked] {
        verdicts(rt, Some(state));
    }
    say::end(rt)
}
