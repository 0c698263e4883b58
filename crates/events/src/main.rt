// The script program: reads a script from standard input and writes its answers, a buffer at a time. All that it writes to standard
// output is made by the crates `place` and `script`; the theorem `whole` of crate `output` says that the pieces are the output that
// the whole input asks for. Where reading or writing fails, the program stops there and says so on standard error: nobody takes a part
// of a script for the whole.
#![tactic(auto)]

ghost use Rattle.std.specs.Prelude.{◌≤◌, length, IfOk};

use std::io;
use std::io::{Read, Stdin};
use std::process::ExitCode;

// Reads until the input ends or the buffer is full, and says how many bytes that were. A read that fails is no end.
fn read_input(mut from: Stdin, buf: &mut [u8]) -> io::Result<usize>
    ensures { IfOk result (λ n. n ≤ length buf.new) }
{
    let mut n = 0;
    while n < buf.len() {
        let more = from.read(&mut buf[n..])?;
        if more == 0 {
            break;
        }
        n += more;
    }
    Ok(n)
}

// Writes what a script of these bytes answers.
fn answer(rt: &impl Print, input: &[u8]) -> io::Result<()> {
    let mut out = [0u8; 16384];
    let opened = place::header(&mut out);
    rt.write_all(words::head(&out, opened))?;
    if place::too_long(input.len()) {
        let refused = place::refusal(&mut out);
        return rt.write_all(words::head(&out, refused));
    }
    let mut here = place::begin();
    while here.at < input.len() {
        script::chunk(input, &mut here, &mut out);
        rt.write_all(words::head(&out, here.used))?;
    }
    let last = place::finish(&mut out, &here);
    rt.write_all(words::head(&out, last))
}

fn main(rt: HostRuntime) -> ExitCode {
    // one byte more than a script may have, so that a longer one shows
    let mut input = [0u8; 65537];
    let Ok(n) = read_input(rt.stdin(), &mut input) else {
        let _told = rt.eprintln("events: standard input can't be read");
        return ExitCode::FAILURE;
    };
    if answer(&rt, words::head(&input, n)).is_err() {
        let _told = rt.eprintln("events: standard output can't be written");
        return ExitCode::FAILURE;
    }
    ExitCode::SUCCESS
}
