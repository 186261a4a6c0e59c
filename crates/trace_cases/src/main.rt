// Document 01's traces and examples of refusals, and those of cards 1, 7 and 9 to 11, run and printed. The file `stdout` beside src/ has what the papers
// say of them.
#![tactic(auto)]

use listing::reading;
use model::Tally;
use sheet::read::read_sheet;
use table::sheets::card6;
use table::{Row, WIDTH};
use trace::run;
use trace::run::RefusedAt;

fn print(rt: &HostRuntime, text: &[u8]) {
    let _ = rt.stdout().write_all(text);
}

// A tally of so many names, and no events.
fn issued_so_far(issued: u32) -> Tally {
    Tally {
        issued,
        creates: 0,
        borrows: 0,
        reads: 0,
        writes: 0,
        drops: 0,
        refused: 0,
    }
}

// The refusal's number is what is printed.
fn print_numbers(rt: &HostRuntime, refusal: u32, line: usize) {
    let _ = rt.print(refusal);
    print(rt, b" ");
    let _ = rt.print(line);
    print(rt, b"\n");
}

fn print_answer(rt: &HostRuntime, answer: Result<usize, RefusedAt>) {
    match answer {
        Ok(lines) => print_numbers(rt, 0, lines),
        Err(at) => print_numbers(rt, trace::number_of(at.refusal), at.line),
    }
}

// Runs a trace on all that is lent, and prints the refusal, 0 where every line is allowed, and the number of lines or the line.
fn run_stored(
    rt: &HostRuntime,
    table: &mut [Row],
    bits: &mut [u8],
    stored: &mut [Row],
    copies: &mut [u8],
    issued: u32,
    limits: &[u32],
    input: &[u8],
) {
    let sheet = card6();
    let ran = run::run_lent(
        table,
        bits,
        stored,
        copies,
        issued_so_far(issued),
        &sheet,
        limits,
        input,
    );
    let answer = ran.answer;
    print_answer(rt, answer);
}

// The same with nothing stored.
fn run_with(
    rt: &HostRuntime,
    table: &mut [Row],
    bits: &mut [u8],
    issued: u32,
    limits: &[u32],
    input: &[u8],
) {
    let mut stored = [[0u32; WIDTH]; 8200];
    let mut copies = [0u8; 65536];
    run_stored(
        rt,
        table,
        bits,
        &mut stored,
        &mut copies,
        issued,
        limits,
        input,
    );
}

// The same with nothing written, and with no limits.
fn run_on(rt: &HostRuntime, table: &mut [Row], issued: u32, input: &[u8]) {
    let mut bits = [0u8; 8192];
    let unlimited: [u32; 0] = [];
    run_with(rt, table, &mut bits, issued, &unlimited, input);
}

// The same on the first rows of a table, or on all where it has no more.
fn run_on_first(rt: &HostRuntime, table: &mut [Row], rows: usize, issued: u32, input: &[u8]) {
    if rows < table.len() {
        run_on(rt, &mut table[..rows], issued, input);
    } else {
        run_on(rt, table, issued, input);
    }
}

// The same on so many empty rows, up to 1,025.
fn run_on_empty(rt: &HostRuntime, rows: usize, issued: u32, input: &[u8]) {
    let mut table = [[0u32; WIDTH]; 1025];
    run_on_first(rt, &mut table, rows, issued, input);
}

// The table of refusal 1: rows both named 3.
fn run_on_disordered(rt: &HostRuntime, input: &[u8]) {
    let mut table = [[0u32; WIDTH]; 2];
    table[0] = [3, 0, 0, 0, 0, 0, 0, 0, 0, 0, 0];
    table[1] = [3, 0, 0, 0, 0, 0, 0, 0, 0, 0, 0];
    run_on(rt, &mut table, 3, input);
}

// Trace 11, its second half: the listing of an empty table with all names but one issued is read, and two are asked for.
fn last_name(rt: &HostRuntime) {
    let mut table = [[0u32; WIDTH]; 1024];
    let mut bits = [0u8; 8192];
    let mut tally = [0u32; 7];
    let _ = reading::read_listing(b"(issued 999999)\n", &mut table, &mut tally);
    let sheet = card6();
    let unlimited: [u32; 0] = [];
    let mut stored = [[0u32; WIDTH]; 8200];
    let mut copies = [0u8; 65536];
    let answer = run::run(
        &mut table,
        &mut bits,
        &mut stored,
        &mut copies,
        &mut tally,
        &sheet,
        &unlimited,
        b"(create 0 8 rw)\n(create 0 8 rw)\n",
    );
    print_answer(rt, answer);
}

// Reads a sheet over card 6's, and prints the refusal, 0 where it is one, and then the answer to a trace by the sheet that is left.
fn run_by(rt: &HostRuntime, text: &[u8], input: &[u8]) {
    let mut sheet = card6();
    let read = read_sheet(text, &mut sheet);
    match read {
        Ok(_) => print_numbers(rt, 0, 0),
        Err(refusal) => print_numbers(rt, trace::number_of(refusal), 0),
    }
    let mut table = [[0u32; WIDTH]; 1024];
    let mut bits = [0u8; 8192];
    let unlimited: [u32; 0] = [];
    let mut stored = [[0u32; WIDTH]; 8200];
    let mut copies = [0u8; 65536];
    let ran = run::run_lent(
        &mut table,
        &mut bits,
        &mut stored,
        &mut copies,
        issued_so_far(0),
        &sheet,
        &unlimited,
        input,
    );
    let answer = ran.answer;
    print_answer(rt, answer);
}

// Card 7: a sheet by which only strangers' writes end anything, and texts that are refused 2, 14 and 15.
fn sheets(rt: &HostRuntime) {
    run_by(
        rt,
        b"(rule (holder reference raw cell) (access read write) (from cell kin) keep)\n(rule (holder cell raw reference) (access read) (from stranger) keep)\n(rule (holder raw reference cell) (access write) (from stranger) end)\n",
        b"(create 0 64 rw)\n(borrow 1 0 8 rw)\n(write 1 0 8)\n(write 2 0 8)\n(create 0 64 rw)\n(read 2 0 8)\n",
    );
    run_by(
        rt,
        b"(rule (holder raw raw) (access write) (from kin) keep)\n(rule (holder) (access write) (from kin) keep)\n",
        b"(create 0 64 rw)\n(borrow 1 0 8 rw)\n(write 1 0 8)\n(write 2 0 8)\n",
    );
    run_by(
        rt,
        b"(rule (holder raw raw) (access write) (from kin) keep)\n",
        b"",
    );
    run_by(
        rt,
        b"(rule (holder raw) (access write) (from kin) keep)\n",
        b"",
    );
}

fn traces(rt: &HostRuntime) {
    console::print_check(
        rt,
        b"(create 0 64 rw)\n(borrow 1 0 64 rw)\n(borrow 1 1 64 rw)\n",
    );
    console::print_check(rt, b"(create 0 64 rw)\n(borrow 1 0 8 rw)\n(write 1 8 1)\n");
    console::print_check(rt, b"(create 0 64 rw)\n(borrow 1 0 8 rw)\n(write 1 7 1)\n");
    console::print_check(
        rt,
        b"(create 0 64 rw)\n(borrow 1 0 8 rw)\n(borrow 1 0 8 rw)\n(write 2 0 8)\n",
    );
    console::print_check(
        rt,
        b"(create 0 64 rw)\n(borrow 1 0 8 rw)\n(borrow 1 0 8 rw)\n(read 2 0 1)\n(read 3 0 1)\n",
    );
    console::print_check(
        rt,
        b"(create 0 64 rw)\n(borrow 1 0 32 rw)\n(borrow 2 16 16 rw)\n(write 1 0 1)\n",
    );
    console::print_check(rt, b"(create 0 64 rw)\n(drop 1)\n(read 1 0 0)\n");
    console::print_check(rt, b"(create 4294967295 1 rw)\n(create 4294967295 2 rw)\n");
    console::print_check(
        rt,
        b"(create 4096 8 rw)\n(borrow 1 4096 8 rw)\n(borrow 2 4096 8 rw)\n(write 2 4096 8)\n(write 3 4096 8)\n",
    );
}

// Traces 8 and 9: one row, and none.
fn few_rows(rt: &HostRuntime) {
    run_on_empty(rt, 1, 0, b"(create 0 64 rw)\n(borrow 1 0 8 rw)\n");
    run_on_empty(
        rt,
        1,
        0,
        b"(create 0 64 rw)\n(drop 1)\n(create 0 64 rw)\n(read 2 0 8)\n",
    );
    run_on_empty(rt, 0, 0, b"(create 0 64 rw)\n");
    run_on_empty(rt, 1025, 0, b"(create 0 64 rw)\n");
}

// The examples of refusals, in their order, on two rows.
fn refusals(rt: &HostRuntime) {
    run_on_disordered(rt, b"(read 3 0 8)\n");
    run_on_disordered(rt, b"");
    run_on_disordered(rt, b"no event\n");
    run_on_empty(rt, 2, 0, b"(create 0 64 rw)\n(read 01 0 8)\n");
    run_on_empty(
        rt,
        2,
        0,
        b"(create 0 64 rw)\n(read 1 0 0)\n(read 1 4294967295 2)\n",
    );
    run_on_empty(rt, 2, 0, b"(create 0 64 rw)\n(read 9 0 8)\n");
    run_on_empty(rt, 2, 0, b"(create 0 64 rw)\n(drop 1)\n(read 1 0 8)\n");
    run_on_empty(rt, 2, 0, b"(create 0 64 rw)\n(read 1 60 8)\n");
    run_on_empty(
        rt,
        2,
        0,
        b"(create 0 64 rw)\n(borrow 1 0 8 ro)\n(write 2 0 8)\n",
    );
    run_on_empty(
        rt,
        2,
        0,
        b"(create 0 64 rw)\n(borrow 1 0 8 ro)\n(create 0 8 rw)\n",
    );
}

// Card 1: names written out; a wrong name; and misspelt, a line without its name, another number, a header without its newline, and
// `(trace 2)` behind the first line.
fn named(rt: &HostRuntime) {
    console::print_check(
        rt,
        b"(trace 2)\n(create 1 0 64 rw)\n(borrow 2 1 0 8 rw)\n(read 1 0 8)\n",
    );
    console::print_check(rt, b"(trace 2)\n");
    console::print_check(rt, b"(trace 2)\n(create 1 0 64 rw)\n(borrow 3 1 0 8 rw)\n");
    console::print_check(rt, b"(trace 2)\n(create 0 64 rw)\n");
    console::print_check(rt, b"(trace 1)\n");
    console::print_check(rt, b"(trace 2)");
    console::print_check(rt, b"(create 0 64 rw)\n(trace 2)\n");
    console::print_check(rt, b"(trace 2)\n(trace 2)\n");
}

// Card 9: a read before any write; a read of one byte more than was written through a child; a create that ends above 65,536, and one that
// ends there; and with its names written out.
fn written_first(rt: &HostRuntime) {
    console::print_check(rt, b"(create 0 8 rw fresh)\n(read 1 0 1)\n");
    console::print_check(
        rt,
        b"(create 0 8 rw fresh)\n(borrow 1 0 4 rw)\n(write 2 0 2)\n(read 1 0 2)\n(read 1 0 3)\n",
    );
    console::print_check(rt, b"(create 65528 9 rw fresh)\n");
    console::print_check(rt, b"(create 65528 8 rw fresh)\n");
    console::print_check(
        rt,
        b"(trace 2)\n(create 1 0 8 rw fresh)\n(write 1 0 1)\n(borrow 2 1 0 8 ro)\n(read 2 0 1)\n(read 2 0 2)\n",
    );
}

// Card 9: bits that are a byte short.
fn few_bits(rt: &HostRuntime) {
    let mut table = [[0u32; WIDTH]; 2];
    let mut bits = [0u8; 8191];
    let unlimited: [u32; 0] = [];
    run_with(
        rt,
        &mut table,
        &mut bits,
        0,
        &unlimited,
        b"(create 0 8 rw)\n",
    );
}

// Card 10: who acts, and who holds: a domain that is no holder; one that borrows from what is lent to it; a group that is asked for by no
// holder of its second name; and spellings that are none.
fn domains(rt: &HostRuntime) {
    console::print_check(rt, b"(as 3 (create 0 8 rw))\n(read 1 0 8)\n");
    console::print_check(
        rt,
        b"(create 0 8 rw 0000000000000009)\n(as 3 (borrow 1 0 8 rw))\n(as 3 (write 2 0 8))\n(write 2 0 8)\n",
    );
    console::print_check(
        rt,
        b"(as 63 (create 0 8 ro 8000000000000001))\n(as 63 (create 8 8 rw))\n(as 63 (drop 1 2))\n",
    );
    console::print_check(
        rt,
        b"(create 0 8 rw 0000000000000003)\n(create 8 8 rw)\n(as 1 (drop 1 2))\n",
    );
    console::print_check(rt, b"(as 0 (create 0 8 rw))\n");
    console::print_check(rt, b"(as 64 (create 0 8 rw))\n");
    console::print_check(rt, b"(create 0 8 rw 0000000000000001)\n");
    console::print_check(rt, b"(as 3 (create 0 8 rw 0000000000000001))\n");
    console::print_check(rt, b"(create 0 8 rw 000000000000000F)\n");
}

// The same on 64 rows with limits: so many for domain 0, and so many for domain 63.
fn run_limited(rt: &HostRuntime, zero: u32, last: u32, input: &[u8]) {
    let mut table = [[0u32; WIDTH]; 64];
    let mut bits = [0u8; 8192];
    let mut limits = [0u32; 64];
    limits[0] = zero;
    limits[63] = last;
    run_with(rt, &mut table, &mut bits, 0, &limits, input);
}

// Card 10: a limit that is reached, and a row of another domain; a drop that gives back; a domain that may make none; a sum that is the
// rows, one above, and one that would wrap in 32 bits; and a sheet of another length.
fn limited(rt: &HostRuntime) {
    run_limited(
        rt,
        1,
        1,
        b"(create 0 8 rw)\n(as 63 (create 8 8 rw))\n(create 16 8 rw)\n",
    );
    run_limited(rt, 1, 0, b"(create 0 8 rw)\n(drop 1)\n(create 0 8 rw)\n");
    run_limited(rt, 1, 0, b"(as 63 (create 0 8 rw))\n");
    run_limited(rt, 63, 1, b"");
    run_limited(rt, 64, 1, b"");
    run_limited(rt, 4294967295, 2, b"(create 0 8 rw)\n");
    let mut table = [[0u32; WIDTH]; 64];
    let mut bits = [0u8; 8192];
    let short = [0u32; 63];
    run_with(rt, &mut table, &mut bits, 0, &short, b"(create 0 8 rw)\n");
}

// Card 11: what a drop took comes back, and a name given since is ended; a back that finds nothing, before a mark and in another slot; and slots
// that are none.
fn states(rt: &HostRuntime) {
    console::print_check(
        rt,
        b"(create 0 8 rw)\n(mark 3)\n(drop 1)\n(back 3)\n(read 1 0 8)\n",
    );
    console::print_check(
        rt,
        b"(create 0 8 rw)\n(as 7 (mark 0))\n(borrow 1 0 8 rw)\n(back 0)\n(create 8 8 rw)\n(read 2 0 8)\n",
    );
    console::print_check(rt, b"(back 7)\n");
    console::print_check(rt, b"(mark 1)\n(back 1)\n(back 2)\n");
    console::print_check(rt, b"(mark 8)\n");
    console::print_check(rt, b"(as 64 (mark 0))\n");
}

// Card 11: memory that is a row short.
fn rows_short(rt: &HostRuntime) {
    let mut table = [[0u32; WIDTH]; 2];
    let mut bits = [0u8; 8192];
    let mut stored = [[0u32; WIDTH]; 8199];
    let mut copies = [0u8; 65536];
    let unlimited: [u32; 0] = [];
    run_stored(
        rt,
        &mut table,
        &mut bits,
        &mut stored,
        &mut copies,
        0,
        &unlimited,
        b"(mark 0)\n",
    );
}

// Memory that is a byte short.
fn bytes_short(rt: &HostRuntime) {
    let mut table = [[0u32; WIDTH]; 2];
    let mut bits = [0u8; 8192];
    let mut stored = [[0u32; WIDTH]; 8200];
    let mut copies = [0u8; 65535];
    let unlimited: [u32; 0] = [];
    run_stored(
        rt,
        &mut table,
        &mut bits,
        &mut stored,
        &mut copies,
        0,
        &unlimited,
        b"(mark 0)\n",
    );
}

// A state that was stored on fewer rows: the line that goes back to it is 1, and those before it stand.
fn rows_differ(rt: &HostRuntime) {
    let mut two = [[0u32; WIDTH]; 2];
    let mut three = [[0u32; WIDTH]; 3];
    let mut bits = [0u8; 8192];
    let mut stored = [[0u32; WIDTH]; 8200];
    let mut copies = [0u8; 65536];
    let unlimited: [u32; 0] = [];
    run_stored(
        rt,
        &mut two,
        &mut bits,
        &mut stored,
        &mut copies,
        0,
        &unlimited,
        b"(mark 0)\n",
    );
    run_stored(
        rt,
        &mut three,
        &mut bits,
        &mut stored,
        &mut copies,
        0,
        &unlimited,
        b"(create 0 8 rw)\n(back 0)\n",
    );
}

fn main(rt: HostRuntime) {
    traces(&rt);
    named(&rt);
    few_rows(&rt);
    refusals(&rt);
    last_name(&rt);
    sheets(&rt);
    written_first(&rt);
    few_bits(&rt);
    domains(&rt);
    limited(&rt);
    states(&rt);
    rows_short(&rt);
    bytes_short(&rt);
    rows_differ(&rt);
}
