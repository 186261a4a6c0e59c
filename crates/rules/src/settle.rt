// Rows after their marks: the gaps close, and the rest is cleared.
ghost use Rattle.std.specs.Prelude.{◌≡◌, cond, ◌+◌, ◌<◌, ◌≤◌, length, get_or, set, eqb, ltb};
ghost use Rattle.model.specs.Table.{empty_row};
ghost use Rattle.model.specs.Effects.{lowered};
ghost use Rattle.table.specs.Words.{rows_in};
ghost use Rattle.table.specs.Rows.{Places};
ghost use Rattle.rules.specs.Engine.{Ready, Downward, Quiet, Stays, kept, Closes, Clears, Lowers, Settled};

use model::Cap;
use table::Row;
use table::ordered::wide;
use table::words::{empty_row, row_at, set_row};

// A row with `ro`, if its mark is 1.
fn marked_row(c: Cap, mark: u8) -> Cap
    ensures { result ≡ lowered (eqb mark 1) c }
{
    if mark == 1 {
        let name = c.name;
        let parent = c.parent;
        let start = c.start;
        Cap {
            name,
            parent,
            start,
            length: c.length,
            right: 1,
            depth: c.depth,
            kind: c.kind,
            fresh: c.fresh,
            maker: c.maker,
            holders: c.holders,
        }
    } else {
        c
    }
}

// The row i gets `ro`, if its mark is 1. Any other needs no writing: a read changes few rows.
fn lower_row(table: &mut [Row], i: usize, mark: u8)
    requires { i < length table.old }
    ensures { rows_in table.new ≡ set (rows_in table.old) i (lowered (eqb mark 1) (get_or (rows_in table.old) i empty_row)) }
{
    if mark != 1 {
        return;
    }
    let c = row_at(table, i);
    set_row(table, i, marked_row(c, mark));
}

// Where no row ends: of the first k rows, those marked 1 get `ro`. Those in front of `first` have no mark.
pub(crate) fn lower(table: &mut [Row], first: usize, k: usize, marks: &[u8; 1024])
    requires { (k ≤ 1024) × (k ≤ length table.old) × Quiet k first marks.now }
    ensures { Lowers marks.now (rows_in table.old) (rows_in table.new) k }
{
    for i in first..k {
        lower_row(table, i, marks[i]);
    }
}

// The row i moves to the place `left`, unless its mark is 2; the answer is the next place.
fn move_row(table: &mut [Row], i: usize, left: usize, mark: u8) -> usize
    requires { (left ≤ i) × (i < length table.old) }
    ensures { (rows_in table.new ≡ cond (ltb mark 2) (set (rows_in table.old) left (lowered (eqb mark 1) (get_or (rows_in table.old) i empty_row))) (rows_in table.old))
        × (result ≡ cond (ltb mark 2) (left + 1) left) }
{
    if 2 <= mark {
        return left;
    }
    // A row that stays where it is and as it is needs no writing.
    if mark == 0 {
        if left == i {
            return left + 1;
        }
    }
    let c = row_at(table, i);
    set_row(table, left, marked_row(c, mark));
    left + 1
}

// Places where rows stand already: each of the first is its own.
fn stay_put(first: usize) -> [u16; 1024]
    requires { first ≤ 1024 }
    ensures { Stays first result }
{
    let mut moved = [0u16; 1024];
    for i in 0..first {
        moved[i] = i as u16;
    }
    moved
}

// The first k rows close up, and the places of their parents with them; the answer is how many are left. Those in front of `first` stay.
fn close(
    table: &mut [Row],
    first: usize,
    k: usize,
    marks: &[u8; 1024],
    places: &mut [u16; 1024],
) -> usize
    requires { (k ≤ 1024) × (k ≤ length table.old) × Places (rows_in table.old) k places.old × Downward (rows_in table.old) k marks.now × Quiet k first marks.now }
    ensures { Closes marks.now (rows_in table.old) (rows_in table.new) k result
        × Places (rows_in table.new) result places.new }
{
    // Where each row goes. A root has its own place, and a parent stays where a child of it does.
    let mut moved = stay_put(first);
    let mut left = first;
    for i in first..k {
        moved[i] = left as u16;
        let q = wide(places[i]);
        places[left] = moved[q];
        left = move_row(table, i, left, marks[i]);
    }
    left
}

// Zeros from one row up to another.
// Each row is put by `set_row`, and not all by `fill`, since only `table::words` knows a row's words.
pub(crate) fn clear(table: &mut [Row], from: usize, to: usize)
    requires { (from ≤ to) × (to ≤ length table.old) }
    ensures { Clears (rows_in table.old) (rows_in table.new) from to }
{
    for i in from..to {
        set_row(table, i, empty_row());
    }
}

// The first k rows after their marks; the answer is how many are left.
pub(crate) fn settle(
    table: &mut [Row],
    first: usize,
    k: usize,
    marks: &[u8; 1024],
    places: &mut [u16; 1024],
) -> usize
    requires { Ready table.old k × Places (rows_in table.old) k places.old × Downward (rows_in table.old) k marks.now × Quiet k first marks.now }
    ensures { Settled (rows_in table.new) (length table.old) result (kept marks.now (rows_in table.old) k) places.new }
{
    let left = close(table, first, k, marks, places);
    clear(table, left, k);
    left
}
