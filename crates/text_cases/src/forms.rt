// Lines in document 01's form, and lines with a word that a card has added.
use crate::show;
use text::form;

fn read(rt: &HostRuntime, label: &[u8], line: &[u8]) {
    show::say(rt, label);
    let answer = form::read_form(line);
    match answer {
        Ok(event) => show::say_event(rt, event),
        Err(refusal) => show::say_refusal(rt, refusal),
    }
    show::say(rt, b"\n");
}

pub fn lines(rt: &HostRuntime) {
    read(rt, b"create in document 01's form:", b"(create 0 64 rw)\n");
    read(rt, b"borrow in it:", b"(borrow 1 16 16 ro)\n");
    read(rt, b"read in it:", b"(read 1 0 4)\n");
    read(rt, b"write in it:", b"(write 2 0 8)\n");
    read(rt, b"drop in it:", b"(drop 7)\n");
}

pub fn other_lines(rt: &HostRuntime) {
    read(rt, b"a mark in it:", b"(create 0 8 rw fresh)\n");
    read(rt, b"a kind in it:", b"(borrow 1 0 8 rw raw)\n");
    read(rt, b"another domain in it:", b"(as 3 (read 1 0 8))\n");
    read(
        rt,
        b"other holders in it:",
        b"(create 0 8 rw 0000000000000003)\n",
    );
    read(rt, b"names dropped together in it:", b"(drop 1 2)\n");
    read(rt, b"a mark of a state in it:", b"(mark 1)\n");
    read(rt, b"the line before names in it:", b"(trace 2)\n");
    read(rt, b"a name written out in it:", b"(create 1 0 8 rw)\n");
    read(rt, b"an empty line in it:", b"\n");
    read(rt, b"no byte in it:", b"");
}
