// Whether names may be dropped together, on a table in order.
ghost use Rattle.std.specs.Prelude.{◌≡◌, ◌<◌, ◌≤◌};
ghost use Rattle.model.specs.Lists.{first};
ghost use Rattle.model.specs.Step.{verdict};
ghost use Rattle.model.specs.Answers.{verdict_of};
ghost use Rattle.model.specs.Requests.{is_group};
ghost use Rattle.model.specs.Refusals.{standings};
ghost use Rattle.table.specs.Words.{rows_in};
ghost use Rattle.table.specs.Rows.{before, Rise};
ghost use Rattle.table.specs.Stands.{group_checks};

use crate::Row;
use crate::judge::place_of;
use crate::masks::is_domain;
use model::{Name, Refusal};

// Whether names are a group: 1 to 64 of them, strictly rising.
pub fn is_group(names: &[u32]) -> bool
    ensures { result ≡ is_group names.now }
{
    if names.len() < 1 {
        return false;
    }
    if 64 < names.len() {
        return false;
    }
    names.is_sorted_by(|a, b| a < b)
}

// Refusals 4, 5 and 17, of the first name that gets one.
fn judge_names(
    table: &[Row],
    k: usize,
    issued: u32,
    actor: u32,
    names: &[u32],
) -> Result<Name, Refusal>
    requires { (k ≤ 1024) × Rise (rows_in table.now) k × (actor < 64) }
    ensures { verdict_of result ≡ verdict (first (standings (before (rows_in table.now) k) issued actor names.now)) 0 }
{
    for name in names {
        place_of(table, k, issued, actor, Name(*name))?;
    }
    Ok(Name(0))
}

// The answer to a group of names.
pub(crate) fn judge_group(
    table: &[Row],
    k: usize,
    issued: u32,
    actor: u32,
    names: &[u32],
) -> Result<Name, Refusal>
    requires { (k ≤ 1024) × Rise (rows_in table.now) k }
    ensures { verdict_of result ≡ verdict (first (group_checks (before (rows_in table.now) k) issued actor names.now)) 0 }
{
    if !is_group(names) {
        return Err(Refusal::Misgrouped);
    }
    if !is_domain(actor) {
        return Err(Refusal::Misspelt);
    }
    judge_names(table, k, issued, actor, names)
}
