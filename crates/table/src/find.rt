// Rows by their names: how many there are, and where a name stands.
ghost use Rattle.std.specs.Prelude.{◌≡◌, cond, ◌+◌, ◌<◌, ◌≤◌, length, ltb};
ghost use Rattle.table.specs.Words.{rows_in};
ghost use Rattle.table.specs.Rows.{name_at, Rise, Front, Found};

use crate::Row;
use crate::words::{cap_of, row_at};

// How many rows stand before the first with name 0.
pub fn live_count(table: &[Row]) -> usize
    ensures { Front (rows_in table.now) (length table.now) result }
{
    table
        .iter()
        .position(|row| cap_of(row).name.0 == 0)
        .unwrap_or(table.len())
}

// The place `half` further on, unless the name there is above x. It is computed with no branch, because no processor foresees this one.
fn not_above(table: &[Row], base: usize, half: usize, x: u32) -> usize
    requires { base + half < length table.now }
    ensures { result ≡ cond (ltb x (name_at (rows_in table.now) (base + half))) base (base + half) }
{
    let c = row_at(table, base + half);
    let further = (4294967296 + x as u64 - c.name.0 as u64) / 4294967296;
    base + half * (further as usize)
}

// Where the name x stands among the first k rows; k if nowhere. Internal: the caller shows that their names rise.
// The place behind the rows is what `places` holds of a root, in 16 bits (memory is of fixed size), and where the names of a drop are noted that are
// not there: so it is a number, and no `Option`. A row is looked for by its name, and so by no `binary_search`, which takes the whole element.
pub fn find(table: &[Row], k: usize, x: u32) -> usize
    requires { (k ≤ 1024) × Rise (rows_in table.now) k }
    ensures { Found (rows_in table.now) k x result }
{
    if k == 0 {
        return k;
    }
    let mut base: usize = 0;
    let mut size = k;
    while 1 < size {
        let half = size / 2;
        base = not_above(table, base, half, x);
        size -= half;
    }
    let c = row_at(table, base);
    if c.name.0 == x { base } else { k }
}

// The same, with a place that is tried first. No row is named 0. Internal, in the same way.
pub fn find_near(table: &[Row], k: usize, x: u32, hint: usize) -> usize
    requires { (k ≤ 1024) × Rise (rows_in table.now) k }
    ensures { Found (rows_in table.now) k x result }
{
    if x == 0 {
        return k;
    }
    if hint < k {
        let c = row_at(table, hint);
        if c.name.0 == x {
            return hint;
        }
    }
    find(table, k, x)
}
