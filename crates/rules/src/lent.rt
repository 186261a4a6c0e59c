// The lent table, bits, states and tally, in place.
ghost use Rattle.std.specs.Prelude.{◌≡◌};
ghost use Rattle.model.specs.Step;
ghost use Rattle.model.specs.Requests.{request_of};
ghost use Rattle.model.specs.Answers.{verdict_of};
ghost use Rattle.table.specs.Words.{rows_in};
ghost use Rattle.table.specs.Sheets.{sheet_in};
ghost use Rattle.table.specs.Limits.{limits_in};
ghost use Rattle.table.specs.States.{states_in};
ghost use Rattle.table.specs.Lent.{tally_in, lent};

use crate::steps::step;
use model::{Asked, Name, Refusal};
use table::lent::{set_tally, tally_at};
use table::{Row, SheetBytes};

// A request on the table, the bits, the memory for states and the tally that are lent, by a sheet, with limits where some are lent; the names are
// those of names dropped together.
pub fn apply(
    table: &mut [Row],
    bits: &mut [u8],
    stored: &mut [Row],
    copies: &mut [u8],
    tally: &mut [u32; 7],
    sheet: &SheetBytes,
    limits: &[u32],
    asked: Asked,
    names: &[u32],
) -> Result<Name, Refusal>
    ensures { (rows_in table.new ≡ (Step.after (sheet_in sheet.now) (lent table.old bits.old stored.old copies.old tally.old) (request_of (limits_in limits.now) asked names.now)).memory.table)
        × (bits.new ≡ (Step.after (sheet_in sheet.now) (lent table.old bits.old stored.old copies.old tally.old) (request_of (limits_in limits.now) asked names.now)).memory.bits)
        × (states_in stored.new copies.new ≡ (Step.after (sheet_in sheet.now) (lent table.old bits.old stored.old copies.old tally.old) (request_of (limits_in limits.now) asked names.now)).slots)
        × (tally_in tally.new ≡ (Step.after (sheet_in sheet.now) (lent table.old bits.old stored.old copies.old tally.old) (request_of (limits_in limits.now) asked names.now)).tally)
        × (verdict_of result ≡ Step.answer (lent table.old bits.old stored.old copies.old tally.old) (request_of (limits_in limits.now) asked names.now)) }
{
    let t = tally_at(tally);
    let out = step(table, bits, stored, copies, t, sheet, limits, asked, names);
    let after = out.tally;
    set_tally(tally, after);
    let answer = out.answer;
    answer
}
