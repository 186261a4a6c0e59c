// Where to go from a row when a listing is written: to its first child, and to its next sibling. A row's parent is looked for
// where a name of its slot was seen, and else found by binary search, so that the links of n rows take at most n log n, and writing goes
// to each row once.
ghost use Rattle.std.specs.Prelude.{◌≡◌, ◌<◌, ◌≤◌, length, replicate};
ghost use Rattle.table.specs.Rows.{name_at, parent_at};
ghost use Rattle.listing.specs.First.{first_rows};
ghost use Rattle.listing.specs.Links.{Live, Linked};

use table::{Row, find, ordered, words};

// Notes where names stand, for a first guess at a parent's row. Where two have one slot, the later stays.
fn note_rows(table: &[Row], n: usize, seen: &mut [u16; 2048])
    requires { (n ≤ 1024) × (length seen.old ≡ 2048) × (n ≤ length table.now) }
    ensures { length seen.new ≡ 2048 }
{
    for i in 0..n {
        let name = words::row_at(table, i).name.0;
        seen[ordered::slot(name)] = i as u16;
    }
}

// The row of a row's parent; n for a root.
// `first[n]` is the first root, so the place behind the rows is one like the others (`Linked`, listing/specs/Links), and no `Option`.
fn parent_row(table: &[Row], n: usize, i: usize, seen: &[u16; 2048]) -> usize
    requires { (i < n) × (n ≤ 1024) × Live (first_rows table.now n) × (length seen.now ≡ 2048) × (n ≤ length table.now) }
    ensures { (result ≤ n) × (name_at (first_rows table.now n) result ≡ parent_at (first_rows table.now n) i) }
{
    let parent = words::row_at(table, i).parent.0;
    if parent == 0 {
        return n;
    }
    let guess = ordered::wide(seen[ordered::slot(parent)]);
    find::find_near(table, n, parent, guess)
}

// Fills in each row's first child and next sibling, and behind the last row the first root: one pass from the last row to
// the first, in which each row comes to stand before its later siblings.
pub(crate) fn link(table: &[Row], n: usize, first: &mut [usize; 1025], next: &mut [usize; 1025])
    requires { (n ≤ 1024) × Live (first_rows table.now n) × (first.old ≡ replicate 1025 n) × (next.old ≡ replicate 1025 n) × (n ≤ length table.now) }
    ensures { Linked (first_rows table.now n) first.new next.new }
{
    let mut seen = [0u16; 2048];
    note_rows(table, n, &mut seen);
    for i in (0..n).rev() {
        let p = parent_row(table, n, i, &seen);
        next[i] = first[p];
        first[p] = i;
    }
}
