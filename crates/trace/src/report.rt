// What `capcheck` prints: the answer of a run, and the listing of the table after it.
ghost use Rattle.std.specs.Prelude.{◌≡◌, true, ◌++◌, ◌≤◌, length, take};
ghost use Rattle.model.specs.Table.{in_order};
ghost use Rattle.table.specs.Words.{rows_in};
ghost use Rattle.table.specs.States.{states_in, emptied};
ghost use Rattle.text.specs.Event.{bytes};
ghost use Rattle.text.specs.Put.{Room, Put};
ghost use Rattle.text.specs.Write.{Writes};
ghost use Rattle.listing.specs.Listing.{listing};
ghost use Rattle.trace.specs.Check.{answer_line, check_with, stored_with};

use crate::run;
use listing::writing;
use model::{Refusal, Tally};
use rules::answers::number_of;
use table::sheets::card6;
use table::states::forget;
use table::{Row, WIDTH};
use text::pieces;

// How many bytes the line of an answer has. The refusal is 0 where every line was allowed.
fn answer_length(refusal: u32, number: u32) -> usize
    ensures { (result ≡ length (answer_line refusal number)) × (result ≤ 43) }
{
    if refusal == 0 {
        let numbers = [number];
        10 + pieces::spaced_length(&numbers)
    } else {
        let numbers = [refusal, number];
        10 + pieces::spaced_length(&numbers)
    }
}

// Writes the line of an answer at the buffer's first bytes.
fn put_answer(refusal: u32, number: u32, out: &mut [u8]) -> usize
    requires { Room out.old 0 (answer_line refusal number) }
    ensures { Put out.old 0 (answer_line refusal number) out.new result }
{
    if refusal == 0 {
        let numbers = [number];
        pieces::put_line(b"(allowed", &numbers, out)
    } else {
        let numbers = [refusal, number];
        pieces::put_line(b"(refused", &numbers, out)
    }
}

// Writes the line of an answer and the listing of a table in order. The listing, which is measured before it is written, goes first:
// where it does not fit, nothing is written.
fn write_report(
    table: &[Row],
    issued: u32,
    refusal: u32,
    number: u32,
    out: &mut [u8],
) -> Result<usize, Refusal>
    requires { in_order (rows_in table.now) issued ≡ true }
    ensures { Writes true (answer_line refusal number ++ listing (rows_in table.now) issued) out.old out.new result }
{
    let start = answer_length(refusal, number);
    if out.len() < start {
        return Err(Refusal::BufferTooShort);
    }
    let length = writing::write_listing(table, issued, &mut out[start..])?;
    put_answer(refusal, number, out);
    Ok(start + length)
}

// Writes the line of an input that is too long.
fn write_long(out: &mut [u8]) -> Result<usize, Refusal>
    ensures { Writes true (bytes "(long)\n") out.old out.new result }
{
    if out.len() < 7 {
        return Err(Refusal::BufferTooShort);
    }
    Ok(pieces::put_bytes(out, 0, b"(long)\n"))
}

// Runs an input on 1,024 empty rows, with nothing written and nothing stored, by card 6's sheet, and writes what `capcheck` prints of it at the
// buffer's first bytes. The memory for states is lent to work in: what stood there is forgotten.
pub fn check(
    input: &[u8],
    stored: &mut [Row],
    copies: &mut [u8],
    out: &mut [u8],
) -> Result<usize, Refusal>
    ensures { Writes true (check_with (emptied (states_in stored.old copies.old)) input.now) out.old out.new result
        × (states_in stored.new copies.new ≡ stored_with (emptied (states_in stored.old copies.old)) input.now) }
{
    forget(stored, copies);
    if 65536 < input.len() {
        return write_long(out);
    }
    let none = Tally {
        issued: 0,
        creates: 0,
        borrows: 0,
        reads: 0,
        writes: 0,
        drops: 0,
        refused: 0,
    };
    let mut table = [[0u32; WIDTH]; 1024];
    let mut bits = [0u8; 8192];
    let sheet = card6();
    let unlimited: [u32; 0] = [];
    let ran = run::run_lent(
        &mut table, &mut bits, stored, copies, none, &sheet, &unlimited, input,
    );
    let answer = ran.answer;
    let issued = ran.tally.issued;
    match answer {
        Ok(lines) => write_report(&table, issued, 0, lines as u32, out),
        Err(at) => write_report(&table, issued, number_of(at.refusal), at.line as u32, out),
    }
}

// What `capcheck` prints: its length, and an array that begins with it.
#[derive(Clone, Copy)]
pub struct Printed {
    pub bytes: [u8; 60448],
    pub length: usize,
}

// Runs an input on 1,024 empty rows, and answers with what `capcheck` prints of it. No input has more to print than the array holds, so
// this refuses none. The memory for states is lent to work in.
pub fn check_text(input: &[u8], stored: &mut [Row], copies: &mut [u8]) -> Printed
    ensures { (take result.length result.bytes ≡ check_with (emptied (states_in stored.old copies.old)) input.now) × (result.length ≤ 60448) × (length result.bytes ≡ 60448) }
{
    let mut bytes = [0u8; 60448];
    let written = check(input, stored, copies, &mut bytes);
    match written {
        Ok(length) => Printed { bytes, length },
        Err(_) => Printed { bytes, length: 0 },
    }
}
