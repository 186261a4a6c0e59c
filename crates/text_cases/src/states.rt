// Card 11: lines of marks and backs.
use crate::{show, writing};
use model::Asked;
use text::states;

fn mark(rt: &HostRuntime, label: &[u8], actor: u32, slot: u32) {
    let mut buffer = [b'.'; 18];
    show::say(rt, label);
    let answer = states::write_mark(actor, slot, &mut buffer);
    writing::say_written(rt, answer, &buffer);
}

fn back(rt: &HostRuntime, label: &[u8], actor: u32, slot: u32) {
    let mut buffer = [b'.'; 18];
    show::say(rt, label);
    let answer = states::write_back(actor, slot, &mut buffer);
    writing::say_written(rt, answer, &buffer);
}

// Writes a mark into one byte less than one by domain 0 has.
fn short_mark(rt: &HostRuntime, label: &[u8], actor: u32, slot: u32) {
    let mut buffer = [b'.'; 8];
    show::say(rt, label);
    let answer = states::write_mark(actor, slot, &mut buffer);
    writing::say_written(rt, answer, &buffer);
}

// Writes a back into one byte less than the longest has.
fn short_back(rt: &HostRuntime, label: &[u8], actor: u32, slot: u32) {
    let mut buffer = [b'.'; 16];
    show::say(rt, label);
    let answer = states::write_back(actor, slot, &mut buffer);
    writing::say_written(rt, answer, &buffer);
}

pub fn written(rt: &HostRuntime) {
    mark(rt, b"mark of slot 3:", 0, 3);
    mark(rt, b"mark by domain 2:", 2, 3);
    mark(rt, b"longest mark:", 63, 7);
    mark(rt, b"mark of slot 8:", 0, 8);
    mark(rt, b"mark of slot 4294967295:", 0, 4294967295);
    mark(rt, b"mark by domain 64:", 64, 3);
    short_mark(rt, b"mark into 8 bytes:", 0, 3);
    short_mark(rt, b"mark of slot 8 into 8 bytes:", 0, 8);
    back(rt, b"back to slot 3:", 0, 3);
    back(rt, b"back by domain 2:", 2, 3);
    back(rt, b"longest back:", 63, 7);
    back(rt, b"back to slot 8:", 0, 8);
    back(rt, b"back by domain 4294967295:", 4294967295, 3);
    short_back(rt, b"longest back into 16 bytes:", 63, 7);
    short_back(rt, b"back by domain 64 into 16 bytes:", 64, 7);
}

fn say_asked(rt: &HostRuntime, asked: Asked) {
    match asked {
        Asked::Mark(actor, slot) => {
            show::say_actor(rt, actor);
            show::say(rt, b" mark");
            show::say_number(rt, slot);
        }
        Asked::Back(actor, slot) => {
            show::say_actor(rt, actor);
            show::say(rt, b" back");
            show::say_number(rt, slot);
        }
        Asked::Work(_) => show::say(rt, b" work"),
    }
}

fn read(rt: &HostRuntime, label: &[u8], line: &[u8]) {
    show::say(rt, label);
    let answer = states::read_state(line);
    match answer {
        Ok(asked) => say_asked(rt, asked),
        Err(refusal) => show::say_refusal(rt, refusal),
    }
    show::say(rt, b"\n");
}

pub fn lines(rt: &HostRuntime) {
    read(rt, b"mark, read:", b"(mark 3)\n");
    read(rt, b"mark of slot 0, read:", b"(mark 0)\n");
    read(rt, b"mark by domain 2, read:", b"(as 2 (mark 3))\n");
    read(rt, b"longest mark, read:", b"(as 63 (mark 7))\n");
    read(rt, b"back, read:", b"(back 7)\n");
    read(rt, b"back by domain 63, read:", b"(as 63 (back 0))\n");
}

pub fn other_lines(rt: &HostRuntime) {
    read(rt, b"mark of slot 8, read:", b"(mark 8)\n");
    read(rt, b"back to slot 8, read:", b"(back 8)\n");
    read(rt, b"leading zero of a slot:", b"(mark 03)\n");
    read(rt, b"slot 2 to the 32 and 3:", b"(mark 4294967299)\n");
    read(rt, b"no slot:", b"(mark)\n");
    read(rt, b"no digits of a slot:", b"(back )\n");
    read(rt, b"two slots:", b"(mark 1 2)\n");
    read(rt, b"two spaces before a slot:", b"(mark  1)\n");
    read(rt, b"mark by domain 0 written out:", b"(as 0 (mark 1))\n");
    read(rt, b"mark by domain 64, read:", b"(as 64 (mark 1))\n");
    read(rt, b"back without its bracket:", b"(as 2 (back 1)\n");
    read(rt, b"mark without its newline:", b"(mark 1)");
    read(rt, b"back with two newlines:", b"(back 1)\n\n");
    read(rt, b"upper case mark, read:", b"(Mark 1)\n");
    read(rt, b"word that is no mark, read:", b"(make 1)\n");
    read(rt, b"borrow read as a back:", b"(borrow 1 0 8 rw)\n");
    read(rt, b"drop read as a mark:", b"(drop 1)\n");
}
