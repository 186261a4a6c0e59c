// What an access or a drop takes: a mark for each row, 0 keep, 1 lower, 2 end.
ghost use Rattle.std.specs.Prelude.{◌≡◌, not, cond, ◌&&◌, ◌<◌, ◌≤◌, max, eqb, length, get_or, replicate};
ghost use Rattle.model.specs.Values.{touches};
ghost use Rattle.table.specs.Words.{rows_in};
ghost use Rattle.table.specs.Sheets.{sheet_in};
ghost use Rattle.table.specs.Rows.{Rise, Places, LiveRows};
ghost use Rattle.rules.specs.Engine.{OnAncestry, NearestAt, nearer_of, value_below, inside_of, SetInside, is_apart, Related, origin_of, own, own_of_access, Owned, Spread, Spared, Quiet, Most};

use model::{Access, Cap, Origin, Span};
use table::find::find;
use table::ordered::wide;
use table::sheets::result_at;
use table::spans::{do_touch, span_of};
use table::words::row_at;
use table::{Row, SheetBytes};

// Where an access comes from: a cell that the holder is not under, or else its kin, or else a stranger.
fn origin_of(apart: bool, kin: bool) -> Origin
    ensures { result ≡ origin_of apart kin }
{
    if apart {
        return Origin::Cell;
    }
    if kin { Origin::Kin } else { Origin::Stranger }
}

// The place of the nearest cell, where `found` was found further down, k if none, and the row at i is the next.
fn nearer(table: &[Row], k: usize, found: usize, i: usize) -> usize
    requires { i < length table.now }
    ensures { result ≡ nearer_of (rows_in table.now) k found i }
{
    if found < k {
        return found;
    }
    let c = row_at(table, i);
    if c.kind == 2 { i } else { k }
}

// The rows on the ancestry of the name u get 1; the answer is where the nearest cell on it stands, k if there is none. Arrays of marks
// are lent, all zeros: one that is returned is copied.
fn ancestry_of(
    table: &[Row],
    k: usize,
    places: &[u16; 1024],
    u: u32,
    relation: &mut [u8; 1024],
) -> usize
    requires { (k ≤ 1024) × Rise (rows_in table.now) k × Places (rows_in table.now) k places.now × (relation.old ≡ replicate 1024 0) }
    ensures { OnAncestry (rows_in table.now) k u relation.new × NearestAt (rows_in table.now) k u result }
{
    let mut cell = k;
    let mut top = k;
    let mut at = find(table, k, u);
    while at < top {
        relation[at] = 1;
        cell = nearer(table, k, cell, at);
        top = at;
        at = wide(places[at]);
    }
    cell
}

// What a row at i gets: 1 stays; elsewhere 2 where its parent, at q, is under the cell, and else 0.
fn inside_mark(relation: &[u8; 1024], cell: usize, q: usize, i: usize) -> u8
    requires { i < 1024 }
    ensures { result ≡ cond (eqb (get_or relation.now i 0) 1) 1 (inside_of relation.now cell q i) }
{
    if relation[i] == 1 {
        return 1;
    }
    if i <= q {
        return 0;
    }
    if q < cell {
        return 0;
    }
    if relation[q] == 0 { 0 } else { 2 }
}

// Of the first k rows, those under the cell and not on the ancestry, on which it stands, get 2: all of them stand behind it.
fn set_inside(k: usize, places: &[u16; 1024], cell: usize, relation: &mut [u8; 1024])
    requires { (k ≤ 1024) × (cell < k) × (length relation.old ≡ 1024) }
    ensures { SetInside k cell places.now relation.old relation.new }
{
    for i in cell + 1..k {
        relation[i] = inside_mark(relation, cell, wide(places[i]), i);
    }
}

// How each row stands to the user u, and whether there is a cell on its ancestry: one climb along it, and where there is one a pass from
// the cell on.
pub(crate) fn relate(
    table: &[Row],
    k: usize,
    places: &[u16; 1024],
    u: u32,
    relation: &mut [u8; 1024],
) -> bool
    requires { LiveRows (rows_in table.now) k × Places (rows_in table.now) k places.now × (relation.old ≡ replicate 1024 0) }
    ensures { Related (rows_in table.now) k u result relation.new }
{
    let cell = ancestry_of(table, k, places, u, relation);
    if cell < k {
        set_inside(k, places, cell, relation);
        true
    } else {
        false
    }
}

// Whether the access comes from a cell that a row is not under, by the row's relation.
fn is_apart(in_cell: bool, relation: u8) -> bool
    ensures { result ≡ is_apart in_cell relation }
{
    in_cell && relation != 2
}

// A holder's own mark: what an access to s gives it by a sheet.
fn own_mark(
    sheet: &SheetBytes,
    a: Access,
    s: Span,
    c: Cap,
    in_cell: bool,
    relation: u8,
    kin: bool,
) -> u8
    ensures { result ≡ own (sheet_in sheet.now) a s c in_cell relation kin }
{
    if relation == 1 {
        return 0;
    }
    if do_touch(s, span_of(c)) {
        let from = origin_of(is_apart(in_cell, relation), kin);
        result_at(sheet, c.kind, a, from)
    } else {
        0
    }
}

// The mark at q, if q is below i.
fn mark_below(marks: &[u8; 1024], q: usize, i: usize) -> u8
    requires { i ≤ 1024 }
    ensures { result ≡ value_below marks.now q i }
{
    if q < i { marks[q] } else { 0 }
}

// Whether an access to s strikes a holder, where `on` says that it is on the user's ancestry.
fn is_struck(s: Span, t: Span, on: bool) -> bool
    ensures { result ≡ (touches s t && not on) }
{
    do_touch(s, t) && !on
}

// How many rows stand in front of the first that an access to s touches and that is not on the user's ancestry.
// No `position`, which would be no plainer: a row and its relation stand at the same place of two lists.
pub(crate) fn first_struck(table: &[Row], k: usize, relation: &[u8; 1024], s: Span) -> usize
    requires { (k ≤ 1024) × Rise (rows_in table.now) k }
    ensures { Spared (rows_in table.now) k relation.now s result }
{
    for i in 0..k {
        let c = row_at(table, i);
        if is_struck(s, span_of(c), relation[i] == 1) {
            return i;
        }
    }
    k
}

// Each row's mark is the greater of its own and its parent's: an access to s. Those in front of the first that is struck have none.
// The answer is the greatest mark.
pub(crate) fn spread_access(
    table: &[Row],
    first: usize,
    k: usize,
    places: &[u16; 1024],
    relation: &[u8; 1024],
    in_cell: bool,
    sheet: &SheetBytes,
    a: Access,
    s: Span,
    marks: &mut [u8; 1024],
) -> u8
    requires { (k ≤ 1024) × Rise (rows_in table.now) k × Places (rows_in table.now) k places.now × Spared (rows_in table.now) k relation.now s first × (marks.old ≡ replicate 1024 0) }
    ensures { Spread (rows_in table.now) k (own_of_access (sheet_in sheet.now) (rows_in table.now) in_cell relation.now places.now a s) marks.new × Quiet k first marks.new × Most k marks.new result }
{
    let mut most: u8 = 0;
    for i in first..k {
        let c = row_at(table, i);
        let q = wide(places[i]);
        let kin = mark_below(relation, q, i) == 1;
        let owned = own_mark(sheet, a, s, c, in_cell, relation[i], kin);
        let up = mark_below(marks, q, i);
        let mark = up.max(owned);
        marks[i] = mark;
        most = mark.max(most);
    }
    most
}

// The rows of names have 2. A name that is not there is noted behind the rows.
pub(crate) fn own_of_names(table: &[Row], k: usize, names: &[u32], owned: &mut [u8; 1025])
    requires { LiveRows (rows_in table.now) k × (owned.old ≡ replicate 1025 0) }
    ensures { Owned (rows_in table.now) k names.now owned.new }
{
    for name in names {
        let q = find(table, k, *name);
        owned[q] = 2;
    }
}

// How many of the first k rows stand in front of the first that has 2.
pub(crate) fn first_owned(owned: &[u8; 1025], k: usize) -> usize
    requires { k ≤ 1024 }
    ensures { Quiet k result owned.now }
{
    owned[..k].iter().position(|mark| *mark != 0).unwrap_or(k)
}

// The marks of a drop of all rows that have 2: their subtrees go, in one pass from the first of them on.
pub(crate) fn spread_names(
    table: &[Row],
    first: usize,
    k: usize,
    places: &[u16; 1024],
    owned: &[u8; 1025],
    marks: &mut [u8; 1024],
)
    requires { (k ≤ 1024) × Rise (rows_in table.now) k × Places (rows_in table.now) k places.now × Quiet k first owned.now × (marks.old ≡ replicate 1024 0) }
    ensures { Spread (rows_in table.now) k (λ i. get_or owned.now i 0) marks.new × Quiet k first marks.new }
{
    for i in first..k {
        let up = mark_below(marks, wide(places[i]), i);
        marks[i] = up.max(owned[i]);
    }
}
