// The calls of `kelzoud_events` as C calls them: each is the library's of its name, and promises the same.
#![tactic(auto)]

ghost use Rattle.std.specs.Prelude.{◌≡◌};
ghost use Rattle.model.specs.Charge;
ghost use Rattle.model.specs.Step;
ghost use Rattle.table.specs.Words.{rows_in};
ghost use Rattle.table.specs.Sheets.{sheet_lent};
ghost use Rattle.table.specs.Limits.{limits_in};
ghost use Rattle.table.specs.States.{states_in};
ghost use Rattle.table.specs.Lent.{tally_in, lent};
ghost use Rattle.kelzoud_events.specs.Interface.{name_of, packed_verdict, request_in, charge_words};
ghost use Rattle.kelzoud_events.specs.Batch.{taken, after_all, answers_all};

use kelzoud_events::events::Words;
use table::Row;

// One event on the table, the bits, the memory for states and the tally that are lent, by the sheet that is lent, card 6's where no byte of one
// is, with the limits that are lent, none where no number is. The names are those that it may point to.
#[unsafe(no_mangle)]
pub extern "C" fn kz_abi_apply(
    table: &mut [Row],
    bits: &mut [u8],
    stored: &mut [Row],
    copies: &mut [u8],
    tally: &mut [u32; 7],
    sheet: &[u8],
    limits: &[u32],
    event: &Words,
    names: &[u32],
) -> u64
    ensures { (rows_in table.new ≡ (Step.after (sheet_lent sheet.now) (lent table.old bits.old stored.old copies.old tally.old) (request_in (limits_in limits.now) event.now names.now)).memory.table)
        × (bits.new ≡ (Step.after (sheet_lent sheet.now) (lent table.old bits.old stored.old copies.old tally.old) (request_in (limits_in limits.now) event.now names.now)).memory.bits)
        × (states_in stored.new copies.new ≡ (Step.after (sheet_lent sheet.now) (lent table.old bits.old stored.old copies.old tally.old) (request_in (limits_in limits.now) event.now names.now)).slots)
        × (tally_in tally.new ≡ (Step.after (sheet_lent sheet.now) (lent table.old bits.old stored.old copies.old tally.old) (request_in (limits_in limits.now) event.now names.now)).tally)
        × (result ≡ packed_verdict (Step.answer (lent table.old bits.old stored.old copies.old tally.old) (request_in (limits_in limits.now) event.now names.now))) }
{
    kelzoud_events::kz_abi_apply(
        table, bits, stored, copies, tally, sheet, limits, event, names,
    )
}

// In the same way as many events in turn as there are answers for, refused ones too; the answer is how many.
#[unsafe(no_mangle)]
pub extern "C" fn kz_abi_apply_all(
    table: &mut [Row],
    bits: &mut [u8],
    stored: &mut [Row],
    copies: &mut [u8],
    tally: &mut [u32; 7],
    sheet: &[u8],
    limits: &[u32],
    events: &[Words],
    names: &[u32],
    answers: &mut [[u32; 2]],
) -> usize
    ensures { (rows_in table.new ≡ (after_all (sheet_lent sheet.now) (limits_in limits.now) (lent table.old bits.old stored.old copies.old tally.old) events.now names.now answers.old).memory.table)
        × (bits.new ≡ (after_all (sheet_lent sheet.now) (limits_in limits.now) (lent table.old bits.old stored.old copies.old tally.old) events.now names.now answers.old).memory.bits)
        × (states_in stored.new copies.new ≡ (after_all (sheet_lent sheet.now) (limits_in limits.now) (lent table.old bits.old stored.old copies.old tally.old) events.now names.now answers.old).slots)
        × (tally_in tally.new ≡ (after_all (sheet_lent sheet.now) (limits_in limits.now) (lent table.old bits.old stored.old copies.old tally.old) events.now names.now answers.old).tally)
        × (answers.new ≡ answers_all (sheet_lent sheet.now) (limits_in limits.now) (lent table.old bits.old stored.old copies.old tally.old) events.now names.now answers.old)
        × (result ≡ taken events.now answers.old) }
{
    kelzoud_events::kz_abi_apply_all(
        table, bits, stored, copies, tally, sheet, limits, events, names, answers,
    )
}

// What the holders of a name are charged, on the table that is lent with so many names issued: the refusal, 0 for none, the share of each, and
// what is left over. Nothing else is written.
#[unsafe(no_mangle)]
pub extern "C" fn kz_abi_charge(table: &[Row], issued: u32, name: u32, words: &mut [u32; 3])
    ensures { words.new ≡ charge_words (Charge.charge (rows_in table.now) issued (name_of name)) }
{
    kelzoud_events::kz_abi_charge(table, issued, name, words);
}
