// Listings, read: the table that a text can be the listing of is guessed, and accepted when it is in order and writes back to
// the same bytes.
ghost use Rattle.std.specs.Prelude.{◌≡◌, ◌⊎◌, ◌≤◌, length};
ghost use Rattle.table.specs.Words.{rows_in};
ghost use Rattle.text.specs.Read.{same};
ghost use Rattle.listing.specs.First.{first_rows};
ghost use Rattle.listing.specs.Links.{Live};
ghost use Rattle.listing.specs.Listing.{listed};
ghost use Rattle.listing.specs.Stored.{Stored};
ghost use Rattle.listing.specs.ReadListing.{is_listing, guess_table};
ghost use Rattle.listing.specs.ReadInto.{with_issued, target, ReadsInto};

use crate::{forms, sort, writing};
use model::{Refusal, Tally};
use table::lent::{set_tally, tally_at};
use table::{Row, WIDTH, find, ordered};
use text::pieces::copy_over;
use text::{classes, lines, numbers};

// Reads the rows of a text into a table of zeros, by rising name, and returns how many there are.
fn guess_table(text: &[u8], table: &mut [Row; 1024]) -> usize
    requires { Stored table.old 0 }
    ensures { (rows_in table.new ≡ guess_table text.now) × Stored table.new result }
{
    let start = lines::count_through(text, classes::NEWLINE);
    let count = forms::read_lines(forms::past(text, start), table);
    sort::sort_rows(table, count);
    count
}

// Whether the first n rows, all of them live, have a text as their listing. It is written into a buffer that the text fits into, or
// else every listing of a table in order.
// The answer is a plain yes or no: `out` is lent as room to write into, since nothing is allocated, and is no value beside it.
fn writes_back(text: &[u8], table: &[Row], n: usize, issued: u32, out: &mut [u8]) -> bool
    requires { (n ≤ 1024) × Live (first_rows table.now n) × ((length text.now ≤ length out.old) ⊎ (60429 ≤ length out.old)) × (n ≤ length table.now) × (issued ≤ 1000000) }
    ensures { result ≡ same text.now (listed (first_rows table.now n) issued) }
{
    let written = writing::write_rows(table, n, issued, out);
    let Ok(length) = written else {
        return false;
    };
    text == &out[..length]
}

// Whether a text is the listing of a table in order.
fn is_listing(text: &[u8], table: &[Row], issued: u32) -> bool
    requires { length table.now ≤ 1024 }
    ensures { result ≡ is_listing text.now (rows_in table.now) issued }
{
    let live = find::live_count(table);
    if !ordered::in_order(table, issued) {
        return false;
    }
    if text.len() <= 2048 {
        let mut short = [0u8; 2048];
        return writes_back(text, table, live, issued, &mut short);
    }
    let mut long = [0u8; 60429];
    writes_back(text, table, live, issued, &mut long)
}

// The tally with another issued number.
fn with_issued(tally: Tally, issued: u32) -> Tally
    ensures { result ≡ with_issued issued tally }
{
    Tally {
        issued,
        creates: tally.creates,
        borrows: tally.borrows,
        reads: tally.reads,
        writes: tally.writes,
        drops: tally.drops,
        refused: tally.refused,
    }
}

// Reads a listing into the table and the tally that are lent: the issued number, or refusal 1, 2 or 10. What is read is put together
// and judged in a table of its own, so that a refusal changes nothing; a listing that is read fixes the whole lent table.
pub fn read_listing(text: &[u8], table: &mut [Row], tally: &mut [u32; 7]) -> Result<u32, Refusal>
    ensures { ReadsInto text.now (target table.old tally.old) (target table.new tally.new) result }
{
    if 1024 < table.len() {
        return Err(Refusal::Disordered);
    }
    let mut scratch = [[0u32; WIDTH]; 1024];
    let count = guess_table(text, &mut scratch);
    let issued = numbers::number(lines::after_space(text));
    if !is_listing(text, &scratch[..count], issued) {
        return Err(Refusal::Misspelt);
    }
    if table.len() < find::live_count(&scratch) {
        return Err(Refusal::TableFull);
    }
    copy_over(table, &scratch[..table.len()]);
    let before = tally_at(tally);
    set_tally(tally, with_issued(before, issued));
    Ok(issued)
}
