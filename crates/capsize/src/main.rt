// capsize: how many rows a table needs for the clients whose traces stand in the files that are its arguments, one client in each. What is
// printed is what `sizes::sizes_text` is proved to give of them. The files are opened here and not by the script in front, so that no
// trace is copied, or measured before it is read.
#![tactic(auto)]

ghost use Rattle.std.specs.Prelude.{◌≤◌, ◌≡◌, length};
ghost use Rattle.console.specs.Read.{ReadInto};
ghost use Rattle.capsize.specs.Read.{Short};

use console::{print, read_input};
use std::env::{Env, FillError};
use std::fs::File;
use std::io::Read;
use std::str;

// The most clients.
const CLIENTS: usize = 8;

// The most bytes of a client's trace.
const LONGEST: usize = 65536;

// Room for all of them end to end. The one byte more is there for the last: one more than the longest trace is read, so that a longer one
// is seen to be longer.
const ROOM: usize = CLIENTS * LONGEST + 1;

// Room for the longest path.
const PATH: usize = 4096;

// Says on standard error what went wrong.
fn say(rt: &HostRuntime, first: &[u8], second: &[u8]) {
    let errors = rt.stderr();
    let _ = errors.write_all(b"capsize: ");
    let _ = errors.write_all(first);
    let _ = errors.write_all(second);
    let _ = errors.write_all(b"\n");
}

// Prints a text, or says that it could not.
fn print_text(rt: &HostRuntime, text: &[u8]) -> bool {
    print(rt, text, b"capsize: the output could not be written\n")
}

// Reads a trace from a reader. Of one that could not be read to its end, or is too long, that is said.
fn read_trace<R: Read>(
    rt: &HostRuntime,
    reader: &mut R,
    name: &[u8],
    buf: &mut [u8],
) -> Option<usize>
    ensures { Short result }
{
    let read = read_input(reader, buf);
    match read {
        Some(length) => {
            if length <= LONGEST {
                return Some(length);
            }
            if print_text(rt, b"(long)\n") {
                say(rt, name, b" is longer than 65,536 bytes");
            }
            None
        }
        None => {
            say(rt, name, b" could not be read to its end");
            None
        }
    }
}

// Whether a name stands for standard input.
fn is_input(name: &[u8]) -> bool {
    name.len() == 1 && name[0] == b'-'
}

// Opens the file of this name, which is text in UTF-8: no other can be opened.
fn open_file(rt: &HostRuntime, name: &[u8]) -> Option<File> {
    let path = str::from_utf8(name).ok()?;
    File::open(rt, path).ok()
}

// Reads a trace from the file of this name.
fn read_file(rt: &HostRuntime, name: &[u8], buf: &mut [u8]) -> Option<usize>
    ensures { Short result }
{
    if is_input(name) {
        return read_trace(rt, &mut rt.stdin(), b"standard input", buf);
    }
    match open_file(rt, name) {
        Some(mut file) => read_trace(rt, &mut file, name, buf),
        None => {
            say(rt, b"cannot open ", name);
            None
        }
    }
}

// Reads a client's trace from the file that an argument names. One that is too long for a path is taken as empty, which no file's name is.
fn read_client(rt: &HostRuntime, argument: usize, buf: &mut [u8]) -> Option<usize>
    ensures { Short result }
{
    let mut name = [0u8; PATH];
    let length = rt.arg(argument, &mut name).unwrap_or(0);
    read_file(rt, &name[..length], buf)
}

// Reads the traces of so many clients end to end, and notes how long each is. The program's own name stands before the arguments, so
// that the first client's is argument 1.
fn read_clients(
    rt: &HostRuntime,
    count: usize,
    text: &mut [u8],
    lengths: &mut [u32],
) -> Option<usize>
    requires { (count ≤ 8) × (length text.old ≡ 524289) × (length lengths.old ≡ 8) }
    ensures { ReadInto result text.new }
{
    let mut done = 0;
    for client in 0..count {
        let end = done + LONGEST + 1;
        let read = read_client(rt, client + 1, &mut text[done..end]);
        match read {
            Some(length) => {
                lengths[client] = length as u32;
                done += length;
            }
            None => return None,
        }
    }
    Some(done)
}

fn print_sizes(rt: &HostRuntime, text: &[u8], lengths: &[u32]) {
    let printed = sizes::sizes_text(text, lengths);
    let bytes = printed.bytes;
    let length = printed.length;
    print_text(rt, &bytes[..length]);
}

// Room for the traces, of which the contract gives the length alone: a proof that has all its zeros before it takes too long.
fn room() -> [u8; ROOM]
    ensures { 524289 ≡ length result }
{
    [0; ROOM]
}

// Prints the rows of so many clients.
fn size_clients(rt: &HostRuntime, count: usize)
    requires { count ≤ 8 }
{
    let mut text = room();
    let mut lengths = [0u32; CLIENTS];
    let read = read_clients(rt, count, &mut text, &mut lengths);
    match read {
        Some(length) => print_sizes(rt, &text[..length], &lengths[..count]),
        None => {}
    }
}

// Whether there is such an argument, however long it is.
fn has_argument(rt: &HostRuntime, argument: usize) -> bool {
    let mut byte = [0u8; 1];
    !matches!(rt.arg(argument, &mut byte), Err(FillError::NotPresent))
}

// How many clients there are: one for each argument behind the program's own name. More than may be are counted as one too many.
fn client_count(rt: &HostRuntime) -> usize {
    for client in 0..CLIENTS + 1 {
        if !has_argument(rt, client + 1) {
            return client;
        }
    }
    CLIENTS + 1
}

fn main(rt: HostRuntime) {
    let count = client_count(&rt);
    if count <= CLIENTS {
        size_clients(&rt, count);
        return;
    }
    // So many are refused whatever their traces are, so none is read.
    let text: [u8; 0] = [];
    let lengths = [0u32; CLIENTS + 1];
    print_sizes(&rt, &text, &lengths);
}
