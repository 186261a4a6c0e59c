// The lent table as a run of records, and the tally as a struct: one thin function for every request. It takes the records apart into
// rows, has the engine work on these, and puts the records back. A table of more than 1,024 rows is not touched.
ghost use Rattle.std.specs.Prelude.{◌≡◌, ◌++◌, map, ◌<◌, ◌≤◌, length, get_or, set, take, drop};
ghost use Rattle.model.specs.Slots.{unstored};
ghost use Rattle.model.specs.Step;
ghost use Rattle.model.specs.Table.{empty_row};
ghost use Rattle.model.specs.Answers.{verdict_of};
ghost use Rattle.table.specs.Words.{words_of, rows_in};
ghost use Rattle.table.specs.Sheets.{sheet_in};
ghost use Rattle.table.specs.Limits.{limits_in};
ghost use Rattle.model.specs.Requests.{work_of};
ghost use Rattle.rules.specs.Steps.{lends};
ghost use Rattle.rules.specs.Records;
ghost use Rattle.rules.specs.Records.{Requested};

use crate::Outcome;
use crate::steps::step_work;
use model::{Cap, Name, Refusal, Sheet, Tally, Work};
use table::sheets::bytes_of;
use table::words::{row_at, set_row};
use table::{Row, SheetBytes, WIDTH};

// How many of n rows are taken apart.
fn held(n: usize) -> usize
    ensures { result ≡ Records.held n }
{
    if n <= 1024 { n } else { 0 }
}

// A record into the row i.
fn put(rows: &mut [Row; 1024], i: usize, c: Cap)
    requires { (i < 1024) × (length rows.old ≡ 1024) }
    ensures { rows.new ≡ set rows.old i (words_of c) }
{
    set_row(rows, i, c);
}

// The record of the row i.
fn get(rows: &[Row; 1024], i: usize) -> Cap
    requires { (i < 1024) × (length rows.now ≡ 1024) }
    ensures { result ≡ get_or (rows_in rows.now) i empty_row }
{
    row_at(rows, i)
}

// The first n records into rows. Internal: the caller keeps n within both.
fn load(table: &[Cap], n: usize, rows: &mut [Row; 1024])
    requires { (n ≤ length table.now) × (n ≤ 1024) }
    ensures { rows.new ≡ map words_of (take n table.now) ++ drop n rows.old }
{
    for i in 0..n {
        put(rows, i, table[i]);
    }
}

// And back. Internal, in the same way.
fn store(table: &mut [Cap], n: usize, rows: &[Row; 1024])
    requires { (n ≤ length table.old) × (n ≤ 1024) × (length rows.now ≡ 1024) }
    ensures { table.new ≡ take n (rows_in rows.now) ++ drop n table.old }
{
    for i in 0..n {
        table[i] = get(rows, i);
    }
}

// Work on the first n of 1,024 rows; above 1,024 it is refusal 1.
fn request_first(
    rows: &mut [Row],
    n: usize,
    bits: &mut [u8],
    t: Tally,
    sheet: &SheetBytes,
    limits: &[u32],
    work: Work,
    names: &[u32],
) -> Outcome
    requires { length rows.old ≡ 1024 }
    ensures { Requested (sheet_in sheet.now) rows.old n bits.old t (work_of (limits_in limits.now) work names.now) rows.new bits.new result }
{
    if n <= 1024 {
        return step_work(&mut rows[..n], bits, t, sheet, limits, work, names);
    }
    Outcome {
        tally: t,
        answer: Err(Refusal::Disordered),
    }
}

// The same, on a whole array.
fn request_held(
    rows: &mut [Row; 1024],
    n: usize,
    bits: &mut [u8],
    t: Tally,
    sheet: Sheet,
    limits: &[u32],
    work: Work,
    names: &[u32],
) -> Outcome
    requires { length rows.old ≡ 1024 }
    ensures { Requested sheet rows.old n bits.old t (work_of (limits_in limits.now) work names.now) rows.new bits.new result }
{
    let bytes = bytes_of(sheet);
    request_first(rows, n, bits, t, &bytes, limits, work, names)
}

// Work on the table, the bits and the tally that are lent, by a sheet, with limits where some are lent; the names are those of names
// dropped together.
pub fn apply(
    table: &mut [Cap],
    bits: &mut [u8],
    tally: &mut Tally,
    sheet: Sheet,
    limits: &[u32],
    work: Work,
    names: &[u32],
) -> Result<Name, Refusal>
    ensures { (table.new ≡ (Step.after sheet (lends table.old bits.old unstored tally.old) (work_of (limits_in limits.now) work names.now)).memory.table)
        × (bits.new ≡ (Step.after sheet (lends table.old bits.old unstored tally.old) (work_of (limits_in limits.now) work names.now)).memory.bits)
        × (tally.new ≡ (Step.after sheet (lends table.old bits.old unstored tally.old) (work_of (limits_in limits.now) work names.now)).tally)
        × (verdict_of result ≡ Step.answer (lends table.old bits.old unstored tally.old) (work_of (limits_in limits.now) work names.now)) }
{
    let mut rows = [[0u32; WIDTH]; 1024];
    let n = table.len();
    let m = held(n);
    load(table, m, &mut rows);
    let out = request_held(&mut rows, n, bits, *tally, sheet, limits, work, names);
    store(table, m, &rows);
    *tally = out.tally;
    out.answer
}
