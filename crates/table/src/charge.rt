// What a capability's holders are charged.
ghost use Rattle.std.specs.Prelude.{◌≡◌, ◌<◌, length, Ok};
ghost use Rattle.model.specs.Charge.{bits_below, holder_count, shares};
ghost use Rattle.model.specs.Charge;
ghost use Rattle.table.specs.Words.{rows_in};
ghost use Rattle.table.specs.Rows.{Orderly};
ghost use Rattle.table.specs.Charge.{charge_of};

use crate::Row;
use crate::judge::living_place;
use crate::ordered::look_at;
use crate::words::row_at;
use model::{Cap, Name, Refusal};

// How many domains a mask has.
fn count_holders(mask: u64) -> u32
    ensures { result ≡ bits_below 64 mask }
{
    u64::count_ones(mask)
}

// The length in equal shares. Internal: the caller shows that the row has a holder.
fn shares_of(c: Cap) -> (u32, u32)
    requires { 0 < holder_count c }
    ensures { charge_of (Ok result) ≡ shares c }
{
    let holders = count_holders(c.holders);
    (c.length / holders, c.length % holders)
}

// The charge of a name, on a table in order of which k rows live.
fn charge_live(table: &[Row], k: usize, issued: u32, u: Name) -> Result<(u32, u32), Refusal>
    requires { Orderly (rows_in table.now) (length table.now) k issued }
    ensures { charge_of result ≡ Charge.charge (rows_in table.now) issued u }
{
    let q = living_place(table, k, issued, u)?;
    Ok(shares_of(row_at(table, q)))
}

// The charge of a name: the length of its capability in equal shares to its holders, and what is left over.
pub fn charge(table: &[Row], issued: u32, u: Name) -> Result<(u32, u32), Refusal>
    ensures { charge_of result ≡ Charge.charge (rows_in table.now) issued u }
{
    let mut places = [0u16; 1024];
    let Some(live) = look_at(table, issued, &mut places) else {
        return Err(Refusal::Disordered);
    };
    charge_live(table, live, issued, u)
}
