// Runs the public calls on event lines, document 01, "The bracket text", and cards 1, 5, 6 and 9 to 11: the examples for refusals 2 and 11, and a
// table of good and bad lines, which is standard input. Each case is one line of output: what it is, and what was answered; a line that is
// read is answered in both spellings. Lines in document 01's form follow. Last comes the class of each of the 256 byte values, 64 to a line.
#![tactic(auto)]

ghost use Rattle.std.specs.Prelude.{◌≤◌, length};

mod classes;
mod domains;
mod forms;
mod reading;
mod show;
mod states;
mod writing;

use std::io::Read;

// Reads until the buffer is full, the input ends or a read fails. How many bytes it put at the start of the buffer.
fn read_full<R: Read>(reader: &mut R, buffer: &mut [u8]) -> usize
    ensures { result ≤ length buffer.new }
{
    let mut done = 0;
    while done < buffer.len() {
        match reader.read(&mut buffer[done..]) {
            Ok(0) | Err(_) => break,
            Ok(more) => done += more,
        }
    }
    done
}

fn main(rt: HostRuntime) {
    let mut buffer = [0u8; 65536];
    let length = read_full(&mut rt.stdin(), &mut buffer);
    reading::cases(&rt, &buffer[..length]);
    reading::any_byte(&rt);
    reading::next_lines(&rt);
    writing::lengths(&rt);
    writing::refusals(&rt);
    writing::mark_refusals(&rt);
    domains::written(&rt);
    domains::groups(&rt);
    states::written(&rt);
    states::lines(&rt);
    states::other_lines(&rt);
    forms::lines(&rt);
    forms::other_lines(&rt);
    classes::all(&rt);
}
