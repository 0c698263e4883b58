// The script program at its edges, a line for each group: its name, then each line of the output after a bar.
#![tactic(auto)]

ghost use Rattle.std.specs.Prelude.{◌≡◌, ◌≤◌, ◌+◌, length, drop};

// Each line of a text after a bar.
fn bars(rt: &impl Print, text: &[u8]) {
    let mut rest = text;
    while !rest.is_empty() {
        let e = words::until(rest, b'\n');
        say::text(rt, b" | ");
        say::text(rt, words::head(rest, e));
        rest = after(rest, e);
    }
}

// What stands after the byte at n, if there is such a byte.
fn after(l: &[u8], n: usize) -> &[u8]
    requires { n ≤ length l.now }
    ensures { result.now ≡ drop (n + 1) l.now }
{
    if n < l.len() { words::rest(l, n) } else { &[] }
}

// What `events` does with a script, but for a buffer that has room for one line of output only: so each line of a script is a
// piece of its own here, where `events` has thousands in one.
fn line(rt: &impl Print, name: &[u8], input: &[u8]) {
    say::text(rt, b"script ");
    say::text(rt, name);
    say::text(rt, b" | events 1");
    if place::too_long(input.len()) {
        return say::text(rt, b" | 0 13\n");
    }
    let mut out = [0u8; 256];
    let mut here = place::begin();
    while here.at < input.len() {
        script::chunk(input, &mut here, &mut out);
        bars(rt, words::head(&out, here.used));
    }
    let last = place::finish(&mut out, &here);
    bars(rt, words::head(&out, last));
    say::end(rt)
}

// A name, a colon and a script.
fn named(rt: &impl Print, text: &[u8]) {
    let e = words::until(text, b':');
    if e < text.len() {
        line(rt, words::head(text, e), words::rest(text, e));
    }
}

// Named scripts, a tilde after each. They stand in few byte strings, since each call costs the check half a second.
fn scripts(rt: &impl Print, all: &[u8]) {
    let mut rest = all;
    while !rest.is_empty() {
        let e = words::until(rest, b'~');
        named(rt, words::head(rest, e));
        rest = after(rest, e);
    }
}

pub fn every_group(rt: &impl Print) {
    reading(rt);
    fields(rt);
    tables(rt);
    long(rt)
}

// How a script falls into lines, and a line into words.
fn reading(rt: &impl Print) {
    // where a script and its lines end
    scripts(
        rt,
        b"empty:~\
        lone feed:\n~\
        no last feed:start\nadmit 0~\
        empty lines:\n\nstart\n\n~\
        CR LF:start\r\nstart\nadmit 0\r\n\r\n~",
    );
    // a line of 80 bytes is read, with or without its line feed, and one of 81 is not
    scripts(
        rt,
        b"80 bytes:push 000000000000000000000000000000000000000000000000000000000000000000000000007\npop\n~\
        80 bytes at the end:pop\npush 000000000000000000000000000000000000000000000000000000000000000000000000007~\
        81 bytes:push 0000000000000000000000000000000000000000000000000000000000000000000000000007\npop\n~\
        81 bytes at the end:pop\npush 0000000000000000000000000000000000000000000000000000000000000000000000000007~",
    );
    // words stand one space apart and are spelled just so
    scripts(
        rt,
        b"spaces:start\n admit 0\nadmit 0 \nadmit  0\n \nadmit\t0\nadmit 0\t\nadmit 0\n~\
        bytes:\x00\n\xff\nstart\x00\n\xffstart\nst\x00art\nadmit \xff\nadmit 0\x00\nstart\n~\
        upper case:START\nStart\nstart\nadmit 0\nswitch 0 Yield\nmark 1/0 YES\nmark 1/0 yes\n~\
        near words:starts\nstar\nstart2\nstart1\nunir 1/0\nunirqs 1/0\nparks 1/0 1\npol 1\n~",
    );
    // each command has its own number of words
    scripts(
        rt,
        b"missing words:new\nadmit\nswitch\nswitch 0\nmark\nmark 1/0\nsteal\nwake\nirq\nirq 1\nunirq\nsignal\ntake\n\
            park\npark 1/0\nunpark\npoll\npush\n~\
        extra words:new 4 4\nstart 0\nstart1 1\nadmit 0 0\nswitch 0 yield 0\nmark 1/0 yes no\nsteal 0 0\n\
            wake 1/0 1/0\ncollect 0\n~\
        more extra words:irq 1 1/0 1\nunirq 1/0 1\nsignal 1 1\ntake 1/0 1\npark 1/0 1 1\nunpark 1/0 1\npoll 1 1\n\
            push 1 1\npop 1\n~",
    )
}

// What stands in a field.
fn fields(rt: &impl Print) {
    // numbers and ids that can be read, and that cannot
    scripts(
        rt,
        b"zeros:new 00004\nstart\nadmit 0000\nswitch 000 yield\nmark 001/0000000 yes\nirq 00000000007 01/00\n\
            signal 007\npush 00000000000009\npop\n~\
        not numbers:push -1\npush +1\npush 0x1\npush 1.\npush 1a\npush a\npush :\npush /\npush 1_0\npop\n~\
        not ids:start\nwake 0\nwake /\nwake 0/\nwake /0\nwake 0//0\nwake 0/0/0\nwake -0/0\nwake 0:0\nwake 0/0\n~\
        not kinds:start\nswitch 0 yields\nswitch 0 yiel\nswitch 0 0\nmark 0/0 y\nmark 0/0 true\nmark 0/0 no\n~",
    );
    // each field's largest number, and one more
    scripts(
        rt,
        b"N:new 0\nnew 1\nnew 64\nnew 65\nnew 65535\nnew 65536\n~\
        CPU:start\nadmit 255\nadmit 256\nsteal 255\nsteal 256\nswitch 255 exit\nswitch 256 exit\n~\
        id:park 65535/65535 1\npark 65536/0 1\npark 0/65536 1\npoll 1\nirq 1 63/65535\nirq 2 64/0\nsignal 1\n~\
        cookie and token:irq 4294967295 1/0\nirq 4294967296 2/0\nsignal 4294967296\nsignal 4294967295\n\
            push 4294967295\npush 4294967296\npop\npop\n~\
        deadline:park 1/0 18446744073709551615\npark 2/0 18446744073709551616\npoll 18446744073709551614\n\
            poll 18446744073709551616\npoll 18446744073709551615\n~",
    )
}

// What lines do to the tables.
fn tables(rt: &impl Print) {
    // what a `new` leaves: everything where it is refused, nothing where it works
    scripts(
        rt,
        b"new refused:new 4\nstart\nadmit 0\nadmit 0\nirq 3 1/0\npark 1/0 5\npush 9\nnew 65\nnew 0\nnew 65536\nstart\n\
            signal 3\npoll 5\npop\nadmit 0\nadmit 0\n~\
        new works:new 4\nstart\nadmit 0\nadmit 0\nirq 3 1/0\npark 1/0 5\npush 9\nnew 2\nsignal 3\ntake 1/0\npoll 5\n\
            pop\nadmit 0\n~\
        new and start:new 4\nstart\nstart1\nadmit 0\nadmit 1\nnew 3\nstart\nadmit 1\nswitch 1 yield\nadmit 0\nadmit 0\n~",
    );
    // the refusals of the calls, and which comes first
    scripts(
        rt,
        b"early:start1\nadmit 0\nadmit 2\nswitch 1 yield\nmark 0/0 yes\nsteal 0\nwake 0/0\ncollect\nswitch 1 run\n\
            start\nstart\n~\
        CPU off:start\nswitch 1 yield\nswitch 2 yield\nadmit 1\nswitch 1 yield\nstart1\nswitch 1 yield\nstart1\n~\
        irq:irq 1 2/0\nirq 1 3/0\nirq 2 2/0\nirq 3 64/0\nirq 3 3/0\nirq 4 4/0\nirq 5 5/0\nirq 6 6/0\nirq 7 7/0\n\
            irq 8 8/0\nirq 9 9/0\nirq 10 10/0\n~",
    );
    // a script that shows the format, every command once, and the longest line of output
    scripts(
        rt,
        b"document 01:new 4\nstart\nadmit 0\nswitch 0 yield\nswitch 0 exit\ncollect\n~\
        task commands:new 5\nstart\nstart1\nadmit 0\nmark 2/0 yes\nsteal 1\nswitch 1 yield\nswitch 1 preempt\n\
            switch 1 yield\nswitch 1 block\nwake 2/0\nswitch 1 yield\nswitch 1 exit\ncollect\n~\
        other commands:irq 30 2/0\nsignal 30\ntake 2/0\nirq 31 3/0\nunirq 3/0\npark 2/0 100\npark 3/0 200\n\
            unpark 2/0\npoll 200\npush 131075\npop\n~\
        longest answer:park 65520/65535 0\npark 65521/65535 0\npark 65522/65535 0\npark 65523/65535 0\n\
            park 65524/65535 0\npark 65525/65535 0\npark 65526/65535 0\npark 65527/65535 0\npark 65528/65535 0\n\
            park 65529/65535 0\npark 65530/65535 0\npark 65531/65535 0\npark 65532/65535 0\npark 65533/65535 0\n\
            park 65534/65535 0\npark 65535/65535 0\npoll 0\n~\
        release:new 4\nstart\nadmit 0\nadmit 0\nswitch 0 yield\nswitch 0 exit\nswitch 0 exit\ncollect\ncollect\n~",
    );
    // the last line with 0 to 4 tasks, and with tasks that ended
    scripts(
        rt,
        b"0 tasks:new 8\n~\
        1 task:new 8\nstart\n~\
        2 tasks:new 8\nstart\nadmit 0\n~\
        3 tasks:new 8\nstart\nadmit 0\nstart1\n~\
        4 tasks:new 8\nstart\nstart1\nadmit 0\nadmit 1\n~\
        ended tasks:new 8\nstart\nadmit 0\nadmit 0\nadmit 0\nswitch 0 yield\nswitch 0 exit\nswitch 0 block\n~",
    )
}

// The longest input and one byte more. Its first three lines are thousands of bytes long, the last one is `pop`.
fn long(rt: &impl Print) {
    let mut input = [b'7'; 65537];
    input[20000] = b'\n';
    input[40000] = b'\n';
    input[65532] = b'\n';
    input[65533] = b'p';
    input[65534] = b'o';
    input[65535] = b'p';
    line(rt, b"65535 bytes", words::head(&input, 65535));
    line(rt, b"65536 bytes", words::head(&input, 65536));
    line(rt, b"65537 bytes", &input)
}
