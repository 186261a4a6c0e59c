// Whether a table is in order.
ghost use Rattle.std.specs.Prelude.{◌≡◌, not, ◌&&◌, ◌||◌, suc, ◌<◌, ◌≤◌, eqb, leb, length, drop};
ghost use Rattle.model.specs.Lists.{all};
ghost use Rattle.model.specs.Table.{derivation, is_empty_row, is_right, is_kind, is_mark, is_marked, span, terms_in_order, row_fits_parent, row_in_order, rows_in_order, in_order};
ghost use Rattle.model.specs.Values;
ghost use Rattle.table.specs.Words.{rows_in};
ghost use Rattle.table.specs.Rows.{before, Filled, Rise, Front, Found, PlacesIf};
ghost use Rattle.table.specs.Known.{Looks};

use crate::find::{find_near, live_count};
use crate::masks::{has_bit, is_domain};
use crate::spans::{end, is_inside, is_legal, span_of};
use crate::words::row_at;
use crate::{Row, WIDTH};
use model::Cap;

// The words of a row behind its first eight.
const BEHIND: usize = WIDTH - 8;

// The rows from k on are all zeros. A row's first eight words and those behind them are compared apart, for time: eight make one short
// test, and an equality of all words makes a longer one.
fn rest_is_empty(table: &[Row], k: usize) -> bool
    requires { k ≤ length table.now }
    ensures { result ≡ all is_empty_row (drop k (rows_in table.now)) }
{
    table[k..].iter().all(|row| row.first_chunk::<8>() == Some(&[0; 8])
        && row.last_chunk::<BEHIND>() == Some(&[0; BEHIND]))
}

// Whether this is a right.
pub fn is_right(r: u32) -> bool
    ensures { result ≡ is_right r }
{
    matches!(r, 1 | 2)
}

// Whether this is a kind of capability.
pub(crate) fn is_kind(k: u32) -> bool
    ensures { result ≡ is_kind k }
{
    k <= 2
}

// Whether this is a mark.
pub(crate) fn is_mark(m: u32) -> bool
    ensures { result ≡ is_mark m }
{
    m <= 1
}

// The mark of a row: a marked one ends at 65,536 or below.
fn mark_in_order(c: Cap) -> bool
    ensures { result ≡ is_mark c.fresh && (not (is_marked (derivation c)) || leb (Values.end (span c)) 65536) }
{
    if c.fresh == 1 {
        return end(span_of(c)) <= 65536;
    }
    is_mark(c.fresh)
}

// The maker of a row, which is among its holders, and its mark.
fn terms_in_order(c: Cap) -> bool
    ensures { result ≡ terms_in_order (derivation c) }
{
    if !is_domain(c.maker) {
        return false;
    }
    if !has_bit(c.holders, c.maker) {
        return false;
    }
    mark_in_order(c)
}

// A row without a parent.
fn root_in_order(c: Cap) -> bool
    ensures { result ≡ eqb c.depth 1 && eqb c.kind 0 }
{
    if c.depth == 1 { c.kind == 0 } else { false }
}

// A row against its parent's.
fn row_fits_parent(c: Cap, p: Cap) -> bool
    ensures { result ≡ row_fits_parent c p }
{
    if !is_inside(span_of(c), span_of(p)) {
        return false;
    }
    if p.right < c.right {
        return false;
    }
    if c.depth as u64 != p.depth as u64 + 1 {
        return false;
    }
    if 64 < c.depth {
        return false;
    }
    c.fresh == p.fresh
}

// A row against the i rows before it, where q is its parent's place.
fn row_in_order(table: &[Row], i: usize, c: Cap, q: usize) -> bool
    requires { (i ≤ 1024) × Rise (rows_in table.now) i × Found (rows_in table.now) i c.parent.0 q }
    ensures { result ≡ row_in_order c (before (rows_in table.now) i) }
{
    if !is_legal(span_of(c)) {
        return false;
    }
    if !is_right(c.right) {
        return false;
    }
    if !is_kind(c.kind) {
        return false;
    }
    if !terms_in_order(c) {
        return false;
    }
    if c.parent.0 == 0 {
        return root_in_order(c);
    }
    if q < i {
        let p = row_at(table, q);
        row_fits_parent(c, p)
    } else {
        false
    }
}

// Internal. The slot of a name: of 2,048 names in a row, each has its own.
pub fn slot(name: u32) -> usize
    ensures { result < 2048 }
{
    (name % 2048) as usize
}

// Internal. A note as a place.
pub fn wide(x: u16) -> usize
    ensures { result ≡ x }
{
    x as usize
}

// Each of the first k rows against the rows before it. The place of each row's parent is noted.
// A plain yes or no, here and in `check_order`: the definition's answer (`in_order`, model/specs/Table). The places are noted in memory that is lent,
// since nothing is allocated.
fn rows_in_order(table: &[Row], k: usize, issued: u32, places: &mut [u16; 1024]) -> bool
    requires { (k ≤ 1024) × Filled (rows_in table.now) k × (length places.old ≡ 1024) }
    ensures { (result ≡ rows_in_order (suc issued) (before (rows_in table.now) k)) × PlacesIf result (rows_in table.now) k places.new }
{
    // So that the zeros of `seen` cost nothing where no row lives.
    if k == 0 {
        return true;
    }
    // Where names were seen last, for a first guess at a parent's place.
    let mut seen = [0u16; 2048];
    let mut last: u32 = 0;
    for i in 0..k {
        let c = row_at(table, i);
        if c.name.0 <= last {
            return false;
        }
        let guess = wide(seen[slot(c.parent.0)]);
        let q = find_near(table, i, c.parent.0, guess);
        if !row_in_order(table, i, c, q) {
            return false;
        }
        places[i] = q as u16;
        seen[slot(c.name.0)] = i as u16;
        last = c.name.0;
    }
    last <= issued
}

// The rows are in order, where k of them stand before the first with name 0. If they are, the place of each row's parent is noted.
fn check_order(table: &[Row], k: usize, issued: u32, places: &mut [u16; 1024]) -> bool
    requires { (length table.now ≤ 1024) × Front (rows_in table.now) (length table.now) k × (length places.old ≡ 1024) }
    ensures { (result ≡ in_order (rows_in table.now) issued) × PlacesIf result (rows_in table.now) k places.new }
{
    if 1000000 < issued {
        return false;
    }
    if !rest_is_empty(table, k) {
        return false;
    }
    rows_in_order(table, k, issued, places)
}

// Whether a table is in order; above 1,024 rows it is not. If it is, the place of each row's parent is noted, for those who work on it.
pub(crate) fn look_at(table: &[Row], issued: u32, places: &mut [u16; 1024]) -> Option<usize>
    requires { length places.old ≡ 1024 }
    ensures { Looks table.now issued places.new result }
{
    if 1024 < table.len() {
        return None;
    }
    let live = live_count(table);
    if check_order(table, live, issued, places) {
        Some(live)
    } else {
        None
    }
}

// The same, for a caller that has no use for the places.
pub fn in_order(table: &[Row], issued: u32) -> bool
    ensures { result ≡ in_order (rows_in table.now) issued }
{
    let mut places = [0u16; 1024];
    look_at(table, issued, &mut places).is_some()
}
