// Packed ids, and what a supervisor may do to a task: calls with no table.
ghost use Rattle.std.specs.Prelude.{◌≡◌};
ghost use Rattle.ids.specs.Id.{packed, unpacked};
ghost use Rattle.lifecycle.specs.Verdicts.{reap_of, force_of, cancel_of};
ghost use Rattle.numbers.specs.Operands.{flag_named, state_named, verdict_no, verdict_if};

use ids::{TaskId, Token};

#[unsafe(no_mangle)]
pub extern "C" fn bredumalt_ids_to_raw(id: TaskId) -> Token
    ensures { result.0 ≡ packed id }
{
    id.to_raw()
}

#[unsafe(no_mangle)]
pub extern "C" fn bredumalt_ids_from_raw(raw: Token) -> TaskId
    ensures { result ≡ unpacked raw.0 }
{
    TaskId::from_raw(raw)
}

// A state crosses as its code, and any other number says that the id is not known; a flag as a byte, and one that names none is 12.
#[unsafe(no_mangle)]
pub extern "C" fn bredumalt_lifecycle_reap(is_idle: u8, state: u8) -> u8
    ensures { result ≡ verdict_if (λ b. reap_of b (state_named state)) (flag_named is_idle) }
{
    let target = numbers::target_of(state);
    match numbers::flag_of(is_idle) {
        None => 12,
        Some(idle) => numbers::from_reap(lifecycle::reap(idle, target)),
    }
}

#[unsafe(no_mangle)]
pub extern "C" fn bredumalt_lifecycle_force(is_idle: u8, state: u8) -> u8
    ensures { result ≡ verdict_if (λ b. force_of b (state_named state)) (flag_named is_idle) }
{
    let target = numbers::target_of(state);
    match numbers::flag_of(is_idle) {
        None => 12,
        Some(idle) => numbers::from_force(lifecycle::force(idle, target)),
    }
}

#[unsafe(no_mangle)]
pub extern "C" fn bredumalt_lifecycle_cancel(state: u8) -> u8
    ensures { result ≡ verdict_no (cancel_of (state_named state)) }
{
    let target = numbers::target_of(state);
    numbers::from_cancel(lifecycle::cancel(target))
}
