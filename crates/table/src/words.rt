// The rows of a lent table: an array of words each, in the record's order, of which the mask of holders takes two. Only `cap_of` and `set_row`
// know their places.
ghost use Rattle.std.specs.Prelude.{◌≡◌, ◌<◌, length, get_or, set};
ghost use Rattle.model.specs.Table.{empty_row};
ghost use Rattle.table.specs.Words.{mask_of, low_half, high_half, cap_of, words_of, rows_in};

use crate::Row;
use model::{Addr, Cap, Name};

// A mask of holders by its two halves.
pub fn joined(low: u32, high: u32) -> u64
    ensures { result ≡ mask_of low high }
{
    low as u64 + high as u64 * 4294967296
}

// The halves of a mask.
pub fn low_half(mask: u64) -> u32
    ensures { result ≡ low_half mask }
{
    (mask % 4294967296) as u32
}

pub fn high_half(mask: u64) -> u32
    ensures { result ≡ high_half mask }
{
    (mask / 4294967296) as u32
}

// The row that an array of words is.
pub(crate) fn cap_of(row: &Row) -> Cap
    ensures { result ≡ cap_of row.now }
{
    Cap {
        name: Name(row[0]),
        parent: Name(row[1]),
        start: Addr(row[2]),
        length: row[3],
        right: row[4],
        depth: row[5],
        kind: row[6],
        fresh: row[7],
        maker: row[8],
        holders: joined(row[9], row[10]),
    }
}

// The row at i. Internal: the caller keeps i within the table.
pub fn row_at(table: &[Row], i: usize) -> Cap
    requires { i < length table.now }
    ensures { result ≡ get_or (rows_in table.now) i empty_row }
{
    cap_of(&table[i])
}

// Puts a row there. Internal, in the same way.
pub fn set_row(table: &mut [Row], i: usize, c: Cap)
    requires { i < length table.old }
    ensures { (rows_in table.new ≡ set (rows_in table.old) i c) × (table.new ≡ set table.old i (words_of c)) }
{
    table[i] = [
        c.name.0,
        c.parent.0,
        c.start.0,
        c.length,
        c.right,
        c.depth,
        c.kind,
        c.fresh,
        c.maker,
        low_half(c.holders),
        high_half(c.holders),
    ];
}

// The row of no capability.
pub fn empty_row() -> Cap
    ensures { result ≡ empty_row }
{
    Cap {
        name: Name(0),
        parent: Name(0),
        start: Addr(0),
        length: 0,
        right: 0,
        depth: 0,
        kind: 0,
        fresh: 0,
        maker: 0,
        holders: 0,
    }
}
