// Card 10: lines that say who acts, and masks of holders; and by card 5 lines of names that are dropped together.
use crate::writing::case_by;
use crate::{show, writing};
use model::{Addr, Event, Name, Span, Terms};
use text::group;
use text::spelling::Spelling;

fn span(start: u32, length: u32) -> Span {
    Span {
        start: Addr(start),
        length,
    }
}

// Mark and kind are numbers, here and in `borrow`, as in `Terms`.
fn create(rt: &HostRuntime, label: &[u8], actor: u32, fresh: u8, holders: u64, size: usize) {
    let terms = Terms {
        right: 2,
        kind: 0,
        fresh,
        holders,
    };
    let event = Event::Create(None, span(0, 8), terms);
    case_by(rt, label, Spelling::Plain, actor, event, size);
}

fn borrow(rt: &HostRuntime, label: &[u8], actor: u32, kind: u8, holders: u64, size: usize) {
    let terms = Terms {
        right: 2,
        kind,
        fresh: 0,
        holders,
    };
    let event = Event::Borrow(None, Name(1), span(0, 8), terms);
    case_by(rt, label, Spelling::Plain, actor, event, size);
}

// The longest line of an event: all its numbers have ten digits.
fn longest(rt: &HostRuntime, label: &[u8], size: usize) {
    let terms = Terms {
        right: 1,
        kind: 2,
        fresh: 0,
        holders: 18446744073709551615,
    };
    let new = Some(Name(4294967295));
    let event = Event::Borrow(new, Name(4294967295), span(4294967295, 4294967295), terms);
    case_by(rt, label, Spelling::Named, 63, event, size);
}

fn read_by(rt: &HostRuntime, label: &[u8], actor: u32, size: usize) {
    case_by(
        rt,
        label,
        Spelling::Plain,
        actor,
        Event::Read(Name(2), span(0, 8)),
        size,
    );
}

pub fn written(rt: &HostRuntime) {
    read_by(rt, b"read by domain 3 into 20 bytes:", 3, 20);
    read_by(rt, b"read by domain 63 into 23 bytes:", 63, 23);
    read_by(rt, b"read by domain 3 into 19 bytes:", 3, 19);
    read_by(rt, b"read by domain 64:", 64, 30);
    read_by(rt, b"read by domain 4294967295 into 1 byte:", 4294967295, 1);
    create(rt, b"create of domain 3 for itself:", 3, 0, 8, 25);
    create(rt, b"create of domain 3 for 0 and 3:", 3, 0, 9, 40);
    create(
        rt,
        b"create of domain 0 for 0 and 63:",
        0,
        1,
        9223372036854775809,
        40,
    );
    create(
        rt,
        b"create for 0 and 63 into 38 bytes:",
        0,
        1,
        9223372036854775809,
        38,
    );
    create(rt, b"create of domain 3 for 0:", 3, 0, 1, 40);
    create(rt, b"create for none:", 0, 0, 0, 40);
    create(rt, b"create of domain 64:", 64, 0, 1, 40);
    borrow(rt, b"borrow of domain 5 for itself:", 5, 1, 32, 30);
    borrow(
        rt,
        b"borrow of domain 5 for all:",
        5,
        2,
        18446744073709551615,
        50,
    );
    borrow(rt, b"borrow of domain 5 for 4:", 5, 2, 16, 50);
    longest(rt, b"longest line:", 86);
    longest(rt, b"longest line into 85 bytes:", 85);
}

fn write_group(rt: &HostRuntime, label: &[u8], actor: u32, names: &[u32]) {
    let mut buffer = [b'.'; 24];
    show::say(rt, label);
    let answer = group::write_group(actor, names, &mut buffer);
    writing::say_written(rt, answer, &buffer);
}

fn read_group(rt: &HostRuntime, label: &[u8], line: &[u8]) {
    let mut names = [0u32; 64];
    show::say(rt, label);
    let answer = group::read_group(line, &mut names);
    match answer {
        Ok((actor, count)) => {
            show::say_actor(rt, actor);
            show::say_length(rt, count);
            show::say_number(rt, names[0]);
            show::say_number(rt, names[1]);
        }
        Err(refusal) => show::say_refusal(rt, refusal),
    }
    show::say(rt, b"\n");
}

pub fn groups(rt: &HostRuntime) {
    write_group(rt, b"drop together:", 0, &[2, 5, 9]);
    write_group(rt, b"drop together by domain 3:", 3, &[2, 5, 9]);
    write_group(rt, b"drop together by domain 64:", 64, &[2, 5, 9]);
    write_group(rt, b"names that fall by domain 64:", 64, &[5, 2]);
    write_group(rt, b"too long by domain 63:", 63, &[4294967294, 4294967295]);
    read_group(rt, b"drop together, read:", b"(drop 2 5 9)\n");
    read_group(rt, b"by domain 3, read:", b"(as 3 (drop 2 5 9))\n");
    read_group(rt, b"by domain 63, read:", b"(as 63 (drop 7))\n");
    read_group(rt, b"by domain 0 written out:", b"(as 0 (drop 2 5))\n");
    read_group(rt, b"by domain 64, read:", b"(as 64 (drop 2 5))\n");
    read_group(
        rt,
        b"by domain 3 without its bracket:",
        b"(as 3 (drop 2 5)\n",
    );
}
