// What is lent: the tally, seven words in the record's order, whose layout only `tally_at` and `set_tally` know; and a look at all else.
ghost use Rattle.std.specs.Prelude.{◌≡◌, length};
ghost use Rattle.table.specs.Known.{Finds, FindsAll};
ghost use Rattle.table.specs.Lent.{tally_in};

use crate::Row;
use crate::limits::are_allowed;
use crate::ordered::look_at;
use crate::states::is_memory;
use model::Tally;

// The tally that seven words are.
pub fn tally_at(tally: &[u32; 7]) -> Tally
    ensures { result ≡ tally_in tally.now }
{
    Tally {
        issued: tally[0],
        creates: tally[1],
        borrows: tally[2],
        reads: tally[3],
        writes: tally[4],
        drops: tally[5],
        refused: tally[6],
    }
}

// Puts a tally there.
pub fn set_tally(tally: &mut [u32; 7], t: Tally)
    ensures { tally_in tally.new ≡ t }
{
    *tally = [
        t.issued, t.creates, t.borrows, t.reads, t.writes, t.drops, t.refused,
    ];
}

// Whether what work is done on is fit: the table in order, 8,192 bytes of written bits, and limits that are not refused. If it is, the place of
// each row's parent is noted, for those who work on it.
pub fn look(
    table: &[Row],
    bits: &[u8],
    issued: u32,
    limits: &[u32],
    places: &mut [u16; 1024],
) -> Option<usize>
    requires { length places.old ≡ 1024 }
    ensures { Finds table.now bits.now issued limits.now places.new result }
{
    if bits.len() != 8192 {
        return None;
    }
    let live = look_at(table, issued, places)?;
    if are_allowed(table, live, issued, limits) {
        Some(live)
    } else {
        None
    }
}

// Whether all that is lent is fit: what work is done on, and memory for eight states.
pub fn look_all(
    table: &[Row],
    bits: &[u8],
    stored: &[Row],
    copies: &[u8],
    issued: u32,
    limits: &[u32],
    places: &mut [u16; 1024],
) -> Option<usize>
    requires { length places.old ≡ 1024 }
    ensures { FindsAll table.now bits.now stored.now copies.now issued limits.now places.new result }
{
    if !is_memory(stored, copies) {
        return None;
    }
    look(table, bits, issued, limits, places)
}
