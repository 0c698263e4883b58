// Runs the calls and the script program at their edges, a line for each group. Lines that begin with `ours` are of refusals that
// the customer's Rust does not have; every other line is also what the Rust writes, those that begin with `script` behind the
// same refusals.
#![tactic(auto)]

use leaf_cases::{life, parks, ring, waits, wakes};
use table_cases::{damage, table};

fn main(rt: HostRuntime) {
    ring::packing(&rt);
    ring::of_one(&rt);
    ring::of_three(&rt);
    ring::of_64(&rt);
    ring::sizes(&rt);
    ring::broken(&rt);
    wakes::every_size(&rt);
    wakes::wrap(&rt);
    wakes::sizes(&rt);
    wakes::broken(&rt);
    waits::arming(&rt);
    waits::filling(&rt);
    waits::marking(&rt);
    waits::broken(&rt);
    parks::polling(&rt);
    parks::filling(&rt);
    parks::outputs(&rt);
    parks::broken(&rt);
    table::rules(&rt);
    table::refusals(&rt);
    table::cpus(&rt);
    table::epochs(&rt);
    damage::started(&rt);
    damage::fresh(&rt);
    life::every_state(&rt);
    script_cases::every_group(&rt)
}
