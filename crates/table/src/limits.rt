// Sheets of limits: how many live rows each domain has made, against the numbers that are lent.
ghost use Rattle.std.specs.Prelude.{◌≡◌, not, suc, ◌<◌, ◌≤◌, leb, length, get_or, set};
ghost use Rattle.model.specs.Limits.{made, sum, exceeds, refused_sheet};
ghost use Rattle.model.specs.Table.{live_rows};
ghost use Rattle.table.specs.Words.{rows_in};
ghost use Rattle.table.specs.Rows.{before, Orderly};
ghost use Rattle.table.specs.Limits.{limits_in, Makers, Counts, exceeds_by};

use crate::Row;
use crate::words::{cap_of, row_at};

// How many of the first k rows a domain has made. Internal: the caller keeps k within the table.
fn made_by(table: &[Row], k: usize, d: u32) -> usize
    requires { (k ≤ length table.now) × (k ≤ 1024) }
    ensures { result ≡ made d (before (rows_in table.now) k) }
{
    table[..k]
        .iter()
        .filter(|row| cap_of(row).maker == d)
        .count()
}

// The limit of a domain; 0 where none is lent.
// A limit of 0 is reached by every domain, so that no case is needed for one that is not lent.
fn limit_of(limits: &[u32], d: u32) -> u32
    ensures { result ≡ get_or limits.now d 0 }
{
    limits.get(d as usize).copied().unwrap_or(0)
}

// Refusal 18: whether a domain has made as many rows as its limit.
pub(crate) fn limit_reached(table: &[Row], k: usize, limits: &[u32], d: u32) -> bool
    requires { (k ≤ length table.now) × (k ≤ 1024) }
    ensures { result ≡ leb (get_or limits.now d 0) (made d (before (rows_in table.now) k)) }
{
    limit_of(limits, d) as usize <= made_by(table, k, d)
}

// One row more of a maker.
fn count_maker(counts: &mut [u32; 64], maker: usize)
    requires { (length counts.old ≡ 64) × (maker < 64) × (get_or counts.old maker 0 < 1024) }
    ensures { counts.new ≡ set counts.old maker (suc (get_or counts.old maker 0)) }
{
    counts[maker] += 1;
}

// How many of the first k rows each domain has made. Internal: the caller shows that each row has a domain for its maker.
fn count_makers(table: &[Row], k: usize, counts: &mut [u32; 64])
    requires { (k ≤ length table.now) × (k ≤ 1024) × Makers (rows_in table.now) k × Counts (rows_in table.now) 0 counts.old }
    ensures { Counts (rows_in table.now) k counts.new }
{
    for i in 0..k {
        let c = row_at(table, i);
        count_maker(counts, c.maker as usize);
    }
}

// Whether no domain has made more rows than its limit.
fn none_exceeded(counts: &[u32; 64], limits: &[u32]) -> bool
    requires { length limits.now ≡ 64 }
    ensures { result ≡ not (exceeds_by 0 counts.now limits.now) }
{
    limits.iter().zip(counts).all(|(limit, made)| made <= limit)
}

// The sum of the limits, which 32 bits may not hold.
fn sum_of(limits: &[u32]) -> u64
    requires { length limits.now ≡ 64 }
    ensures { result ≡ sum limits.now }
{
    limits.iter().map(|limit| u64::from(*limit)).sum()
}

// Whether no domain has made more of the live rows than its limit, where limits are lent.
pub(crate) fn are_kept(table: &[Row], k: usize, issued: u32, limits: &[u32]) -> bool
    requires { Orderly (rows_in table.now) (length table.now) k issued × ((length limits.now ≡ 0 → ⊥) → length limits.now ≡ 64) }
    ensures { result ≡ not (exceeds 0 (live_rows (rows_in table.now)) limits.now) }
{
    if limits.len() == 0 {
        return true;
    }
    let mut counts = [0u32; 64];
    count_makers(table, k, &mut counts);
    none_exceeded(&counts, limits)
}

// Whether a sheet of limits may be lent with a table in order, of which k rows live: none at all, or 64 numbers whose sum is not above the
// rows and none of which is exceeded.
pub(crate) fn are_allowed(table: &[Row], k: usize, issued: u32, limits: &[u32]) -> bool
    requires { Orderly (rows_in table.now) (length table.now) k issued }
    ensures { result ≡ not (refused_sheet (rows_in table.now) (limits_in limits.now)) }
{
    if limits.len() == 0 {
        return true;
    }
    if limits.len() != 64 {
        return false;
    }
    if (table.len() as u64) < sum_of(limits) {
        return false;
    }
    are_kept(table, k, issued, limits)
}
