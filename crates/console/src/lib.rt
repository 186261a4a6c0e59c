// Standard input and output, for the programs that take traces. No contract can say what is read or written; what `print_check` prints is
// what `trace::check_text` is proved to give.
#![tactic(auto)]

ghost use Rattle.console.specs.Read.{ReadInto};

use std::io::Read;
use table::WIDTH;

// Writes a text to standard output, or this sentence to standard error where it could not be written. Whether it was written.
pub fn print(rt: &HostRuntime, text: &[u8], sentence: &[u8]) -> bool {
    let is_written = rt.stdout().write_all(text).is_ok();
    if !is_written {
        let _ = rt.stderr().write_all(sentence);
    }
    is_written
}

// Prints what `capcheck` prints of an input, or says on standard error that it could not.
pub fn print_check(rt: &HostRuntime, input: &[u8]) {
    let mut stored = [[0u32; WIDTH]; 8200];
    let mut copies = [0u8; 65536];
    let printed = trace::check_text(input, &mut stored, &mut copies);
    let bytes = printed.bytes;
    let length = printed.length;
    print(
        rt,
        &bytes[..length],
        b"capcheck: the output could not be written\n",
    );
}

// Reads until the buffer is full or the input ends. A read that a signal interrupts before it moves a byte counts as one that failed.
pub fn read_input<R: Read>(reader: &mut R, buf: &mut [u8]) -> Option<usize>
    ensures { ReadInto result buf.new }
{
    let mut done = 0;
    while done < buf.len() {
        match reader.read(&mut buf[done..]) {
            Ok(0) => break,
            Ok(more) => done += more,
            Err(_) => return None,
        }
    }
    Some(done)
}

// Prints what `capcheck` prints of standard input, which is read to its end, or as far as tells that it is too long. Of an input that
// could not be read so far nothing is printed: what would be is not the answer to it.
pub fn check_input(rt: &HostRuntime) {
    // One byte more than the longest input, so that a longer one is seen to be longer.
    let mut input = [0u8; 65537];
    let read = read_input(&mut rt.stdin(), &mut input);
    match read {
        Some(length) => print_check(rt, &input[..length]),
        None => {
            let _ = rt
                .stderr()
                .write_all(b"capcheck: the input could not be read to its end\n");
        }
    }
}
