// Listings, written: measured first, so that a refusal leaves the buffer untouched, and then put piece by piece.
ghost use Rattle.std.specs.Prelude.{◌≡◌, true, ◌+◌, ◌*◌, ◌<◌, ◌≤◌, length};
ghost use Rattle.table.specs.Words.{rows_in};
ghost use Rattle.text.specs.Put.{Room, Put};
ghost use Rattle.listing.specs.First.{first_rows};
ghost use Rattle.listing.specs.Listing.{holding, pieces, form_at, roots_from, issued_line, listed, form_length, forms_length};
ghost use Rattle.listing.specs.Links.{Live, Linked};
ghost use Rattle.text.specs.Write.{Writes};
ghost use Rattle.listing.specs.WriteListing.{WritesListing};

use crate::links;
use model::{Cap, Refusal};
use table::{Row, find, ordered, words};
use text::{masks, numbers, pieces};

// How many bytes a capability adds to a listing.
fn form_length(c: Cap) -> usize
    ensures { (result ≡ form_length c) × (result ≤ 77) }
{
    let numbers = [c.name.0, c.start.0, c.length, c.maker];
    let words = pieces::kind_length(c.kind) + pieces::fresh_length(c.fresh);
    22 + pieces::spaced_length(&numbers) + words
}

// How many bytes the first n capabilities add.
fn forms_length(table: &[Row], n: usize) -> usize
    requires { (n ≤ 1024) × (n ≤ length table.now) }
    ensures { (result ≡ forms_length (first_rows table.now n)) × (result ≤ 77 * n) }
{
    let mut total = 0;
    for i in 0..n {
        total += form_length(words::row_at(table, i));
    }
    total
}

// Writes a maker and a mask of holders at a position, each with a space before it, and returns the position behind them.
fn put_holding(out: &mut [u8], at: usize, maker: u32, holders: u64) -> usize
    requires { Room out.old at (holding maker holders) }
    ensures { Put out.old at (holding maker holders) out.new result }
{
    let numbers = [maker];
    let past_maker = pieces::put_numbers(out, at, &numbers);
    out[past_maker] = b' ';
    masks::put_digits(out, past_maker + 1, holders)
}

// Writes a capability's own pieces at a position, and returns the position behind them.
fn put_pieces(out: &mut [u8], at: usize, c: Cap) -> usize
    requires { Room out.old at (pieces c) }
    ensures { Put out.old at (pieces c) out.new result }
{
    let numbers = [c.start.0, c.length];
    let past_name = numbers::put_number(out, at, c.name.0);
    let past_numbers = pieces::put_numbers(out, past_name, &numbers);
    let past_right = pieces::put_right(out, past_numbers, c.right);
    let past_kind = pieces::put_kind(out, past_right, c.kind);
    let past_fresh = pieces::put_fresh(out, past_kind, c.fresh);
    put_holding(out, past_fresh, c.maker, c.holders)
}

// Writes the form of row i, with its children, and returns the position behind it. It calls itself for each depth, at most 64 deep.
fn put_form(
    table: &[Row],
    n: usize,
    first: &[usize; 1025],
    next: &[usize; 1025],
    i: usize,
    out: &mut [u8],
    at: usize,
) -> usize
    requires { (n ≤ 1024) × (i < n) × Linked (first_rows table.now n) first.now next.now × Room out.old at (form_at (first_rows table.now n) i) × (n ≤ length table.now) }
    ensures { Put out.old at (form_at (first_rows table.now n) i) out.new result }
{
    out[at] = b'(';
    let mut here = put_pieces(out, at + 1, words::row_at(table, i));
    let mut k = first[i];
    while k < n {
        out[here] = b' ';
        here = put_form(table, n, first, next, k, out, here + 1);
        k = next[k];
    }
    out[here] = b')';
    here + 1
}

// Writes a line for each root, and returns the position behind them.
fn put_roots(
    table: &[Row],
    n: usize,
    first: &[usize; 1025],
    next: &[usize; 1025],
    out: &mut [u8],
    at: usize,
) -> usize
    requires { (n ≤ 1024) × Linked (first_rows table.now n) first.now next.now × Room out.old at (roots_from (first_rows table.now n) 0) × (n ≤ length table.now) }
    ensures { Put out.old at (roots_from (first_rows table.now n) 0) out.new result }
{
    let mut here = at;
    let mut k = first[n];
    while k < n {
        here = put_form(table, n, first, next, k, out, here);
        out[here] = b'\n';
        here += 1;
        k = next[k];
    }
    here
}

// Writes the line of the issued number at the buffer's first bytes, and returns the position behind it.
fn put_issued(issued: u32, out: &mut [u8]) -> usize
    requires { Room out.old 0 (issued_line issued) }
    ensures { Put out.old 0 (issued_line issued) out.new result }
{
    let numbers = [issued];
    let past_word = pieces::put_bytes(out, 0, b"(issued");
    let past_number = pieces::put_numbers(out, past_word, &numbers);
    pieces::put_bytes(out, past_number, b")\n")
}

// Writes the listing of the first n rows, all of them live, at the buffer's first bytes, and returns its length.
fn put_listing(table: &[Row], n: usize, issued: u32, out: &mut [u8]) -> usize
    requires { (n ≤ 1024) × Live (first_rows table.now n) × Room out.old 0 (listed (first_rows table.now n) issued) × (n ≤ length table.now) }
    ensures { Put out.old 0 (listed (first_rows table.now n) issued) out.new result }
{
    let mut first = [n; 1025];
    let mut next = [n; 1025];
    links::link(table, n, &mut first, &mut next);
    let past_line = put_issued(issued, out);
    put_roots(table, n, &first, &next, out, past_line)
}

// How many bytes the listing of the first n rows has.
fn listing_length(table: &[Row], n: usize, issued: u32) -> usize
    requires { (n ≤ 1024) × Live (first_rows table.now n) × (n ≤ length table.now) }
    ensures { result ≡ length (listed (first_rows table.now n) issued) }
{
    let numbers = [issued];
    9 + pieces::spaced_length(&numbers) + forms_length(table, n)
}

// Writes the listing of the first n rows, all of them live, where it fits. Internal: it asks for rows in order.
pub(crate) fn write_rows(
    table: &[Row],
    n: usize,
    issued: u32,
    out: &mut [u8],
) -> Result<usize, Refusal>
    requires { (n ≤ 1024) × Live (first_rows table.now n) × (n ≤ length table.now) }
    ensures { Writes true (listed (first_rows table.now n) issued) out.old out.new result }
{
    if out.len() < listing_length(table, n, issued) {
        return Err(Refusal::BufferTooShort);
    }
    Ok(put_listing(table, n, issued, out))
}

// Writes the listing of the lent table at the buffer's first bytes: the length, or refusal 1 or 11. Above 1,024 rows it is not in order.
pub fn write_listing(table: &[Row], issued: u32, out: &mut [u8]) -> Result<usize, Refusal>
    ensures { WritesListing (rows_in table.now) issued out.old out.new result }
{
    let n = table.len();
    if 1024 < n {
        return Err(Refusal::Disordered);
    }
    let live = find::live_count(table);
    if !ordered::in_order(table, issued) {
        return Err(Refusal::Disordered);
    }
    write_rows(table, live, issued, out)
}
