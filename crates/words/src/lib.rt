// The words of a script's line: where a part ends, numbers with a largest value, ids.
#![tactic(auto)]

ghost use Rattle.std.specs.Prelude.{◌≡◌, ◌≤◌, ◌<◌, ◌+◌, ◌-◌, length, take, drop};
ghost use Rattle.text.specs.Text.{up_to, is_digit, number as Text·number};
ghost use Rattle.text.specs.Text.{same as Text·same};
ghost use Rattle.words.specs.Words.{largest, both, read_id};

use ids::TaskId;

// Where the first s stands that is not before an index, or the end of l where there is none.
pub fn until_from(l: &[u8], from: usize, s: u8) -> usize
    requires { from ≤ length l.now }
    ensures { (result ≡ from + up_to s (drop from l.now)) × (result ≤ length l.now) }
{
    from + until(&l[from..], s)
}

// How many bytes stand before the first s, or all of them where there is none.
pub fn until(l: &[u8], s: u8) -> usize
    ensures { (result ≡ up_to s l.now) × (result ≤ length l.now) }
{
    l.iter().position(|x| *x == s).unwrap_or(l.len())
}

// What stands from the byte at a on and before the byte at b.
pub fn part(l: &[u8], a: usize, b: usize) -> &[u8]
    requires a_le_b { a ≤ b }
    requires b_in_bounds { b ≤ length l.now }
    ensures { result.now ≡ take (b - a) (drop a l.now) }
{
    &l[a..b]
}

// What stands before the byte at n.
pub fn head(l: &[u8], n: usize) -> &[u8]
    requires { n ≤ length l.now }
    ensures { result.now ≡ take n l.now }
{
    &l[..n]
}

// What stands after the byte at n.
pub fn rest(l: &[u8], n: usize) -> &[u8]
    requires { n < length l.now }
    ensures { result.now ≡ drop (n + 1) l.now }
{
    &l[n + 1..]
}

// Words of different length, which most are, are told apart without a look at their bytes.
pub fn same(a: &[u8], b: &[u8]) -> bool
    ensures { result ≡ Text·same a.now b.now }
{
    a == b
}

// Whether a byte is a decimal digit.
fn is_digit(d: u8) -> bool
    ensures { result ≡ is_digit d }
{
    b'0' <= d && d <= b'9'
}

// The decimal number that w is, where it is at most max. The tests against max come before the sums, so that no sum can
// be larger than max.
pub fn number(w: &[u8], max: u64) -> Option<u64>
    ensures { result ≡ Text·number max w.now }
{
    if w.is_empty() {
        return None;
    }
    let mut v = 0;
    for d in w {
        if !is_digit(*d) {
            return None;
        }
        let x = u64::from(d - b'0');
        if max / 10 < v || max - v * 10 < x {
            return None;
        }
        v = v * 10 + x;
    }
    Some(v)
}

// The id of the slot and the epoch that two texts are.
fn pair(slot: &[u8], epoch: &[u8]) -> Option<TaskId>
    ensures { result ≡ both (Text·number (largest 16) slot.now) (Text·number (largest 16) epoch.now) }
{
    Some(TaskId {
        slot: number(slot, 65535)? as u16,
        epoch: number(epoch, 65535)? as u16,
    })
}

// The id that w is: a slot, one slash, an epoch.
pub fn id(w: &[u8]) -> Option<TaskId>
    ensures { result ≡ read_id w.now }
{
    let a = until(w, b'/');
    if w.len() <= a {
        return None;
    }
    let tail = rest(w, a);
    let b = until(tail, b'/');
    if b < tail.len() {
        return None;
    }
    pair(head(w, a), tail)
}
