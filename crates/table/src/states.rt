// The memory that is lent for eight states, and a look at what is stored there.
ghost use Rattle.std.specs.Prelude.{◌≡◌, ◌+◌, ◌*◌, ◌<◌, ◌≤◌, eqb, length, get_or, set, replicate};
ghost use Rattle.model.specs.declared.Cap.{Cap};
ghost use Rattle.table.specs.Limits.{LimitsFor};
ghost use Rattle.table.specs.Known.{LooksKept};
ghost use Rattle.table.specs.States.{head_of, is_memory, states_in, emptied, LooksBack};

use crate::limits::are_kept;
use crate::ordered::look_at;
use crate::{Row, WIDTH};

// Whether this is memory for eight states.
pub fn is_memory(stored: &[Row], copies: &[u8]) -> bool
    ensures { result ≡ is_memory stored.now copies.now }
{
    if stored.len() != 8200 {
        return false;
    }
    copies.len() == 65536
}

// Where the rows of a slot begin: with its head. Internal: the caller keeps the slot below 8.
pub fn head_at(slot: u32) -> usize
    requires { slot ≤ 7 }
    ensures { result ≡ 1025 * slot }
{
    1025 * slot as usize
}

// Puts zeros there: a head of nothing. Internal: the caller keeps the place within the rows.
fn put_nothing(stored: &mut [Row], at: usize)
    requires { at < length stored.old }
    ensures { stored.new ≡ set stored.old at (replicate 11 0) }
{
    stored[at] = [0u32; WIDTH];
}

// Empties all slots, by their heads alone; what is no memory for eight states has none.
pub fn forget(stored: &mut [Row], copies: &[u8])
    ensures { states_in stored.new copies.now ≡ emptied (states_in stored.old copies.now) }
{
    if !is_memory(stored, copies) {
        return;
    }
    for slot in 0..8 {
        put_nothing(stored, head_at(slot));
    }
}

// What is found in a slot on going back: nothing, a table that is refused, or one of which so many rows live.
#[derive(Clone, Copy)]
pub enum Stock {
    Empty,
    Unfit,
    Fit(usize),
}

// What a slot's head says: 0, or one more than the rows kept; and how many empty rows the table has behind them.
#[derive(Clone, Copy)]
struct Head {
    more: u32,
    empty: u32,
}

// The head of a slot. Internal, in the same way.
fn head_of(stored: &[Row], slot: u32) -> Head
    requires { (length stored.now ≡ 8200) × (slot ≤ 7) }
    ensures { (result.more ≡ get_or (head_of stored.now slot) 0 0) × (result.empty ≡ get_or (head_of stored.now slot) 1 0) }
{
    let head = stored[head_at(slot)];
    Head {
        more: head[0],
        empty: head[1],
    }
}

// Whether a head's words, one more than the rows kept and the empty rows behind them, make up so many rows.
fn is_size(more: u32, empty: u32, size: usize) -> bool
    requires { size ≤ 1024 }
    ensures { result ≡ eqb (more + empty) (size + 1) }
{
    more as u64 + empty as u64 == size as u64 + 1
}

// How many rows are kept, by a head's first word.
fn kept_of(more: u32) -> usize
    requires { 1 ≤ more }
    ensures { result + 1 ≡ more }
{
    more as usize - 1
}

// A look at rows that are kept: whether they are a table in order that keeps the limits.
fn look_kept(rows: &[Row], issued: u32, limits: &[u32], places: &mut [u16; 1024]) -> Option<usize>
    requires { (length places.old ≡ 1024) × ((length limits.now ≡ 0 → ⊥) → length limits.now ≡ 64) }
    ensures { LooksKept rows.now issued limits.now places.new result }
{
    let live = look_at(rows, issued, places)?;
    if are_kept(rows, live, issued, limits) {
        Some(live)
    } else {
        None
    }
}

// A look at a slot, on going back with a table of so many rows, in whose place what is stored may come. If it may, the place of each row's parent
// is noted. Internal: the caller shows that the slot is one of memory for eight states, and that the limits may be lent with so many rows.
pub fn look_back(
    stored: &[Row],
    slot: u32,
    size: usize,
    issued: u32,
    limits: &[u32],
    places: &mut [u16; 1024],
) -> Stock
    requires { (length stored.now ≡ 8200) × (slot ≤ 7) × (size ≤ 1024) × LimitsFor size limits.now × (length places.old ≡ 1024) }
    ensures { LooksBack stored.now slot size issued limits.now places.new result }
{
    let head = head_of(stored, slot);
    if head.more == 0 {
        return Stock::Empty;
    }
    if !is_size(head.more, head.empty, size) {
        return Stock::Unfit;
    }
    let first = head_at(slot) + 1;
    let kept = kept_of(head.more);
    let found = look_kept(&stored[first..first + kept], issued, limits, places);
    match found {
        None => Stock::Unfit,
        Some(live) => Stock::Fit(live),
    }
}
