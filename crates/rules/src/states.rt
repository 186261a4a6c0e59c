// Marks and backs: the table and its written bits are stored in a slot, and brought back. What is copied is the live rows and the bits.
ghost use Rattle.std.specs.Prelude.{◌≡◌, true, not, cond, ℕ, ◌+◌, ◌*◌, ◌<◌, ◌≤◌, length, set, Err};
ghost use Rattle.std.proofs.Math.Seq.{paste};
ghost use Rattle.model.specs.Answers.{number};
ghost use Rattle.model.specs.Counts;
ghost use Rattle.model.specs.Refusals.{not_a_domain, not_a_slot};
ghost use Rattle.table.specs.Words.{rows_in};
ghost use Rattle.table.specs.Rows.{Orderly};
ghost use Rattle.table.specs.Known.{Sized, Fit, FitAll};
ghost use Rattle.table.specs.Limits.{limits_in};
ghost use Rattle.table.specs.States.{head_words, is_memory};
ghost use Rattle.rules.specs.States.{Stores, Brings, Marks, Backs};

use crate::count::count_refused;
use crate::settle::clear;
use crate::{Outcome, Progress};
use model::{Name, Refusal, Tally};
use table::Row;
use table::masks::is_domain;
use table::states::{Stock, head_at, look_back};

// Puts the first n of one list, rows or bytes, from a place of another on. Internal: the caller shows that there are so many of both.
fn copy_into<T: Copy>(to: &mut [T], at: usize, from: &[T], n: usize)
    requires { (at + n ≤ length to.old) × (n ≤ length from.now) }
    ensures { to.new ≡ paste to.old at from.now n }
{
    // No `copy_from_slice`: it is a `memmove`, and of the C library the archives need `memset` and `memcpy` alone.
    for i in 0..n {
        to[at + i] = from[i];
    }
}

// Puts the head of a slot: how many rows are kept, and how many empty ones the table has behind them.
fn put_head(stored: &mut [Row], at: usize, live: usize, empty: usize)
    requires { (at < length stored.old) × (live + empty ≤ 1024) }
    ensures { stored.new ≡ set stored.old at (head_words live empty) }
{
    stored[at] = [live as u32 + 1, empty as u32, 0, 0, 0, 0, 0, 0, 0, 0, 0];
}

// Where the bytes of a slot begin.
fn bytes_at(slot: u32) -> usize
    requires { slot ≤ 7 }
    ensures { result ≡ 8192 * slot }
{
    8192 * slot as usize
}

// Stores a table in order, of which k rows live, and its bits in a slot.
fn store(
    table: &[Row],
    k: usize,
    issued: u32,
    bits: &[u8],
    stored: &mut [Row],
    copies: &mut [u8],
    slot: u32,
)
    requires { Orderly (rows_in table.now) (length table.now) k issued × Sized bits.now × (is_memory stored.old copies.old ≡ true) × (slot ≤ 7) }
    ensures { Stores table.now bits.now stored.old copies.old slot stored.new copies.new }
{
    let at = head_at(slot);
    put_head(stored, at, k, table.len() - k);
    copy_into(stored, at + 1, table, k);
    copy_into(copies, bytes_at(slot), bits, 8192);
}

// Brings back the table that is stored in a slot, of which so many rows live, where k rows live now; and its bits.
fn bring(
    table: &mut [Row],
    k: usize,
    issued: u32,
    bits: &mut [u8],
    stored: &[Row],
    copies: &[u8],
    slot: u32,
    live: usize,
)
    requires { Orderly (rows_in table.old) (length table.old) k issued × Sized bits.old × (is_memory stored.now copies.now ≡ true) × (slot ≤ 7) × (live ≤ length table.old) }
    ensures { Brings table.old stored.now copies.now slot live table.new bits.new }
{
    let first = head_at(slot) + 1;
    copy_into(table, 0, &stored[first..], live);
    clear(table, live, live.max(k));
    copy_into(bits, 0, &copies[bytes_at(slot)..], 8192);
}

// What a refusal other than 1 leaves.
fn refused(t: Tally, k: usize, x: Refusal) -> Progress
    ensures { (result.live ≡ k) × (result.outcome.tally ≡ Counts.count_refused t) × (result.outcome.answer ≡ Err x) }
{
    let outcome = Outcome {
        tally: count_refused(t),
        answer: Err(x),
    };
    Progress { outcome, live: k }
}

// What is allowed, or refused 1, leaves: the tally as it is.
fn uncounted(t: Tally, live: usize, answer: Result<Name, Refusal>) -> Progress
    ensures { (result.live ≡ live) × (result.outcome.tally ≡ t) × (result.outcome.answer ≡ answer) }
{
    let outcome = Outcome { tally: t, answer };
    Progress { outcome, live }
}

// Whether a domain may mark in this slot.
fn is_slot(actor: u32, slot: u32) -> bool
    ensures { result ≡ not (not_a_slot actor slot) }
{
    if 7 < slot {
        return false;
    }
    is_domain(actor)
}

// A mark, where all that is lent is fit: it is so after it, with the same table and bits.
pub(crate) fn take_mark(
    table: &[Row],
    k: usize,
    bits: &[u8],
    stored: &mut [Row],
    copies: &mut [u8],
    t: Tally,
    actor: u32,
    slot: u32,
) -> Progress
    requires { Orderly (rows_in table.now) (length table.now) k t.issued × Sized bits.now × (is_memory stored.old copies.old ≡ true) }
    ensures { Marks table.now bits.now stored.old copies.old t actor slot stored.new copies.new result.outcome
        × (is_memory stored.new copies.new ≡ true) × (result.live ≡ k) × (result.outcome.tally.issued ≡ t.issued) }
{
    if !is_slot(actor, slot) {
        return refused(t, k, Refusal::Misspelt);
    }
    store(table, k, t.issued, bits, stored, copies, slot);
    uncounted(t, k, Ok(Name(0)))
}

// The refusal of a back that finds nothing stored: 2 where no domain acts, and else 19.
fn nothing_stored(actor: u32) -> Refusal
    ensures { number result ≡ cond (not_a_domain actor) 2 19 }
{
    if is_domain(actor) {
        Refusal::NothingStored
    } else {
        Refusal::Misspelt
    }
}

// A back, where all that is lent is fit: it is so after it.
pub(crate) fn take_back(
    table: &mut [Row],
    k: usize,
    places: &mut [u16; 1024],
    bits: &mut [u8],
    stored: &[Row],
    copies: &[u8],
    t: Tally,
    limits: &[u32],
    actor: u32,
    slot: u32,
) -> Progress
    requires { FitAll table.old bits.old stored.now copies.now k t.issued limits.now places.old }
    ensures { Backs (limits_in limits.now) table.old bits.old stored.now copies.now t actor slot table.new bits.new result.outcome
        × Fit table.new bits.new result.live result.outcome.tally.issued limits.now places.new }
{
    if 7 < slot {
        return refused(t, k, Refusal::Misspelt);
    }
    // Those of the table as it is are needed still where the back is refused.
    let mut brought = [0u16; 1024];
    let found = look_back(stored, slot, table.len(), t.issued, limits, &mut brought);
    match found {
        Stock::Unfit => uncounted(t, k, Err(Refusal::Disordered)),
        Stock::Empty => refused(t, k, nothing_stored(actor)),
        Stock::Fit(live) => {
            if !is_domain(actor) {
                return refused(t, k, Refusal::Misspelt);
            }
            bring(table, k, t.issued, bits, stored, copies, slot, live);
            *places = brought;
            uncounted(t, live, Ok(Name(0)))
        }
    }
}
