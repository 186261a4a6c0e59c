// Lines, read.
use crate::show;
use text::spelling::Spelling;
use text::{lines, read};

// The bytes up to the next such byte, and those behind it; all of them, and none, where there is no such byte.
fn cut(text: &[u8], byte: u8) -> (&[u8], &[u8]) {
    match text.iter().position(|b| *b == byte) {
        Some(i) => (&text[..i], &text[i + 1..]),
        None => (text, &[]),
    }
}

fn read_in(rt: &HostRuntime, spelling: Spelling, line: &[u8]) {
    let answer = read::read_event(spelling, line);
    match answer {
        Ok((actor, event)) => {
            show::say_actor(rt, actor);
            show::say_event(rt, event);
        }
        Err(refusal) => show::say_refusal(rt, refusal),
    }
}

// Reads a line in both spellings.
fn read(rt: &HostRuntime, label: &[u8], line: &[u8]) {
    show::say(rt, label);
    show::say(rt, b":");
    read_in(rt, Spelling::Plain, line);
    show::say(rt, b" /");
    read_in(rt, Spelling::Named, line);
    show::say(rt, b"\n");
}

// Runs the case that a table begins with, and returns the rest of the table.
fn case<'a>(rt: &HostRuntime, table: &'a [u8]) -> &'a [u8] {
    let (label, behind_label) = cut(table, b'\n');
    let (line, rest) = cut(behind_label, b'|');
    read(rt, label, line);
    rest
}

// Runs the cases of a table, at most 160: for each a label, up to a newline, and then the bytes to read, up to a bar.
pub fn cases(rt: &HostRuntime, table: &[u8]) {
    let mut rest = table;
    for _ in 0..160 {
        if rest.is_empty() {
            return;
        }
        rest = case(rt, rest);
    }
}

fn is_read(line: &[u8; 9]) -> bool {
    let answer = read::read_event(Spelling::Plain, line);
    if let Ok((_, _)) = answer { true } else { false }
}

// Whether the line `(drop 1)` is still one with another byte at a place.
fn reads_with(at: usize, byte: u8) -> bool {
    let mut line = [b'(', b'd', b'r', b'o', b'p', b' ', b'1', b')', b'\n'];
    if at < 9 {
        line[at] = byte;
    }
    is_read(&line)
}

// How many of the 256 byte values can stand there.
fn count_read(at: usize) -> usize {
    (0..=255u8).filter(|value| reads_with(at, *value)).count()
}

fn sweep(rt: &HostRuntime, label: &[u8], at: usize) {
    show::say(rt, label);
    show::say_length(rt, count_read(at));
    show::say(rt, b"\n");
}

pub fn any_byte(rt: &HostRuntime) {
    sweep(rt, b"byte values for the opening bracket:", 0);
    sweep(rt, b"byte values for the space:", 5);
    sweep(rt, b"byte values for the digit:", 6);
    sweep(rt, b"byte values for the newline:", 8);
}

fn next(rt: &HostRuntime, label: &[u8], text: &[u8]) {
    show::say(rt, label);
    let line = lines::next_line(text);
    show::say_length(rt, line.len());
    show::say(rt, b"\n");
}

pub fn next_lines(rt: &HostRuntime) {
    next(rt, b"next line of two:", b"(drop 1)\n(read 1 0 8)\n");
    next(rt, b"next line of one without newline:", b"(drop 1)");
    next(rt, b"next line that is empty:", b"\n(drop 1)\n");
    next(rt, b"next line of an empty text:", b"");
}
