// Whether work is allowed, on a table in order.
ghost use Rattle.std.specs.Prelude.{◌≡◌, length};
ghost use Rattle.model.specs.Answers.{verdict_of};
ghost use Rattle.model.specs.Effects.{new_name};
ghost use Rattle.model.specs.Refusals;
ghost use Rattle.model.specs.Refusals.{view_of};
ghost use Rattle.model.specs.Requests.{work_of};
ghost use Rattle.model.specs.Slots.{unstored};
ghost use Rattle.model.specs.Step.{verdict};
ghost use Rattle.table.specs.Words.{rows_in};
ghost use Rattle.table.specs.Rows.{Orderly};
ghost use Rattle.table.specs.Known.{Sized};
ghost use Rattle.table.specs.Limits.{limits_in, Allowed};

use crate::Row;
use crate::groups::judge_group;
use crate::judge::judge;
use model::{Name, Refusal, Work};

// The answer to work; what is stored decides nothing there. The names are those of names dropped together. Internal: the caller shows that the table is in order, that
// there are as many bits as there are to be, and that the limits are not refused.
pub fn judge_request(
    table: &[Row],
    k: usize,
    bits: &[u8],
    issued: u32,
    limits: &[u32],
    work: Work,
    names: &[u32],
) -> Result<Name, Refusal>
    requires { Orderly (rows_in table.now) (length table.now) k issued × Sized bits.now × Allowed table.now limits.now }
    ensures { verdict_of result ≡ verdict (Refusals.judge (view_of (rows_in table.now) bits.now unstored issued) (work_of (limits_in limits.now) work names.now)) (new_name issued (work_of (limits_in limits.now) work names.now)) }
{
    match work {
        Work::Single(actor, e) => judge(table, k, bits, issued, limits, actor, e),
        Work::Group(actor) => judge_group(table, k, issued, actor, names),
    }
}
