// Lines, written into a buffer of dots: the answer, and what the buffer then holds.
use crate::show;
use model::{Addr, Event, Name, Refusal, Span, Terms};
use text::spelling::Spelling;
use text::write;

// What a writer answered, and what the buffer then holds.
pub fn say_written(rt: &HostRuntime, answer: Result<usize, Refusal>, out: &[u8]) {
    match answer {
        Ok(length) => show::say_length(rt, length),
        Err(refusal) => show::say_refusal(rt, refusal),
    }
    show::say(rt, b" ");
    show::say(rt, out);
    show::say(rt, b"\n");
}

fn write(
    rt: &HostRuntime,
    label: &[u8],
    spelling: Spelling,
    actor: u32,
    event: Event,
    out: &mut [u8],
) {
    show::say(rt, label);
    let answer = write::write_event(spelling, actor, event, out);
    say_written(rt, answer, out);
}

// Writes an event by a domain into so many bytes, at most 90.
pub fn case_by(
    rt: &HostRuntime,
    label: &[u8],
    spelling: Spelling,
    actor: u32,
    event: Event,
    size: usize,
) {
    let mut buffer = [b'.'; 90];
    if size <= 90 {
        write(rt, label, spelling, actor, event, &mut buffer[..size]);
    }
}

fn case(rt: &HostRuntime, label: &[u8], spelling: Spelling, event: Event, size: usize) {
    case_by(rt, label, spelling, 0, event, size);
}

// What domain 0 gives to what it makes for itself alone.
// They are numbers, any of which `Terms` may have.
fn terms(right: u8, kind: u8, fresh: u8) -> Terms {
    Terms {
        right,
        kind,
        fresh,
        holders: 1,
    }
}

fn create_in(
    rt: &HostRuntime,
    label: &[u8],
    spelling: Spelling,
    new: Option<Name>,
    terms: Terms,
    size: usize,
) {
    let span = Span {
        start: Addr(0),
        length: 64,
    };
    case(rt, label, spelling, Event::Create(new, span, terms), size);
}

fn create(rt: &HostRuntime, label: &[u8], terms: Terms, size: usize) {
    create_in(rt, label, Spelling::Plain, None, terms, size);
}

fn create_named(rt: &HostRuntime, label: &[u8], terms: Terms, size: usize) {
    create_in(rt, label, Spelling::Named, Some(Name(1)), terms, size);
}

fn borrow_in(
    rt: &HostRuntime,
    label: &[u8],
    spelling: Spelling,
    new: Option<Name>,
    terms: Terms,
    size: usize,
) {
    let span = Span {
        start: Addr(0),
        length: 8,
    };
    case(
        rt,
        label,
        spelling,
        Event::Borrow(new, Name(1), span, terms),
        size,
    );
}

fn borrow(rt: &HostRuntime, label: &[u8], terms: Terms, size: usize) {
    borrow_in(rt, label, Spelling::Plain, None, terms, size);
}

fn borrow_named(rt: &HostRuntime, label: &[u8], terms: Terms, size: usize) {
    borrow_in(rt, label, Spelling::Named, Some(Name(2)), terms, size);
}

fn drop(rt: &HostRuntime, label: &[u8], size: usize) {
    case(rt, label, Spelling::Plain, Event::Drop(Name(1)), size);
}

pub fn lengths(rt: &HostRuntime) {
    drop(rt, b"drop into 9 bytes:", 9);
    drop(rt, b"drop into 12 bytes:", 12);
    create(rt, b"create ro into 20 bytes:", terms(1, 0, 0), 20);
    create(rt, b"create rw into 20 bytes:", terms(2, 0, 0), 20);
    create_named(rt, b"create 1 rw into 20 bytes:", terms(2, 0, 0), 20);
    case(
        rt,
        b"drop where names are written:",
        Spelling::Named,
        Event::Drop(Name(1)),
        12,
    );
    borrow(rt, b"borrow rw into 20 bytes:", terms(2, 0, 0), 20);
    borrow(rt, b"borrow rw raw into 22 bytes:", terms(2, 1, 0), 22);
    borrow(rt, b"borrow ro cell into 25 bytes:", terms(1, 2, 0), 25);
    borrow_named(rt, b"borrow 2 ro raw into 25 bytes:", terms(1, 1, 0), 25);
    borrow_named(rt, b"borrow 2 rw cell into 26 bytes:", terms(2, 2, 0), 26);
    create(rt, b"create rw fresh into 23 bytes:", terms(2, 0, 1), 23);
    create(rt, b"create ro fresh into 26 bytes:", terms(1, 0, 1), 26);
    create_named(rt, b"create 1 rw fresh into 25 bytes:", terms(2, 0, 1), 25);
    create_named(rt, b"create 1 ro fresh into 28 bytes:", terms(1, 0, 1), 28);
}

pub fn refusals(rt: &HostRuntime) {
    drop(rt, b"document 01, refusal 11:", 8);
    drop(rt, b"drop into no bytes:", 0);
    create(rt, b"create into 16 bytes:", terms(1, 0, 0), 16);
    create_named(rt, b"create 1 into 18 bytes:", terms(1, 0, 0), 18);
    create(rt, b"right 0:", terms(0, 0, 0), 20);
    create(rt, b"right 3:", terms(3, 0, 0), 20);
    create(rt, b"right 255 into 1 byte:", terms(255, 0, 0), 1);
    create_named(rt, b"right 3 where names are written:", terms(3, 0, 0), 20);
    borrow(rt, b"borrow rw raw into 21 bytes:", terms(2, 1, 0), 21);
    borrow(rt, b"kind 3:", terms(2, 3, 0), 25);
    borrow(rt, b"kind 255 into 1 byte:", terms(1, 255, 0), 1);
    borrow(rt, b"right 3 of kind 1:", terms(3, 1, 0), 25);
    borrow_named(rt, b"kind 3 where names are written:", terms(2, 3, 0), 30);
    create_in(
        rt,
        b"no name where names are written:",
        Spelling::Named,
        None,
        terms(1, 0, 0),
        20,
    );
    create_in(
        rt,
        b"name where none is written:",
        Spelling::Plain,
        Some(Name(1)),
        terms(1, 0, 0),
        20,
    );
}

// Refusals of what a create or borrow gives by card 9.
pub fn mark_refusals(rt: &HostRuntime) {
    create(rt, b"create fresh into 22 bytes:", terms(2, 0, 1), 22);
    create_named(rt, b"create 1 fresh into 24 bytes:", terms(2, 0, 1), 24);
    create(rt, b"mark 2:", terms(2, 0, 2), 26);
    create(rt, b"mark 255:", terms(2, 0, 255), 26);
    create(rt, b"mark 255 into 1 byte:", terms(1, 0, 255), 1);
    create_named(rt, b"mark 2 where names are written:", terms(2, 0, 2), 30);
    create(rt, b"right 3 with mark 1:", terms(3, 0, 1), 26);
    create(rt, b"create of kind 1:", terms(2, 1, 0), 26);
    create(rt, b"create of kind 2 with mark 1:", terms(2, 2, 1), 30);
    create_named(rt, b"create 1 of kind 1:", terms(2, 1, 0), 30);
    borrow(rt, b"borrow with mark 1:", terms(2, 0, 1), 26);
    borrow(rt, b"borrow of kind 1 with mark 1:", terms(2, 1, 1), 30);
    borrow(rt, b"borrow with mark 255:", terms(2, 0, 255), 26);
    borrow_named(rt, b"borrow 2 with mark 1:", terms(1, 0, 1), 30);
}
