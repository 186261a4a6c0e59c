// The calls of the C interface for events alone, over words that are lent, and nothing else.
#![tactic(auto)]

ghost use Rattle.std.specs.Prelude.{◌≡◌};
ghost use Rattle.model.specs.Charge;
ghost use Rattle.model.specs.Step;
ghost use Rattle.table.specs.Words.{rows_in};
ghost use Rattle.table.specs.Sheets.{sheet_lent};
ghost use Rattle.table.specs.Limits.{limits_in};
ghost use Rattle.table.specs.States.{states_in};
ghost use Rattle.table.specs.Lent.{tally_in, lent};
ghost use Rattle.kelzoud_events.specs.Interface.{name_of, packed_verdict, request_in, charge_words};
ghost use Rattle.kelzoud_events.specs.Batch.{taken, after_all, answers_all};

use crate::answers::{charge_words, packed_answer};
use crate::events::{Words, asked_in, names_in};
use model::Name;
use rules::lent::apply;
use table::Row;
use table::charge::charge;
use table::sheets::sheet_lent;

pub mod answers;
mod batch;
pub mod events;

// One event on the table, the bits, the memory for states and the tally that are lent, by the sheet that is lent, card 6's where no byte of one
// is, with the limits that are lent, none where no number is. The names are those that it may point to.
pub fn kz_abi_apply(
    table: &mut [Row],
    bits: &mut [u8],
    stored: &mut [Row],
    copies: &mut [u8],
    tally: &mut [u32; 7],
    sheet: &[u8],
    limits: &[u32],
    event: &Words,
    names: &[u32],
) -> u64
    ensures { (rows_in table.new ≡ (Step.after (sheet_lent sheet.now) (lent table.old bits.old stored.old copies.old tally.old) (request_in (limits_in limits.now) event.now names.now)).memory.table)
        × (bits.new ≡ (Step.after (sheet_lent sheet.now) (lent table.old bits.old stored.old copies.old tally.old) (request_in (limits_in limits.now) event.now names.now)).memory.bits)
        × (states_in stored.new copies.new ≡ (Step.after (sheet_lent sheet.now) (lent table.old bits.old stored.old copies.old tally.old) (request_in (limits_in limits.now) event.now names.now)).slots)
        × (tally_in tally.new ≡ (Step.after (sheet_lent sheet.now) (lent table.old bits.old stored.old copies.old tally.old) (request_in (limits_in limits.now) event.now names.now)).tally)
        × (result ≡ packed_verdict (Step.answer (lent table.old bits.old stored.old copies.old tally.old) (request_in (limits_in limits.now) event.now names.now))) }
{
    let words = *event;
    let asked = asked_in(words);
    let part = names_in(words, names);
    let bytes = sheet_lent(sheet);
    let answer = apply(
        table, bits, stored, copies, tally, &bytes, limits, asked, part,
    );
    packed_answer(answer)
}

// In the same way as many events in turn as there are answers for, refused ones too; the answer is how many.
pub fn kz_abi_apply_all(
    table: &mut [Row],
    bits: &mut [u8],
    stored: &mut [Row],
    copies: &mut [u8],
    tally: &mut [u32; 7],
    sheet: &[u8],
    limits: &[u32],
    events: &[Words],
    names: &[u32],
    answers: &mut [[u32; 2]],
) -> usize
    ensures { (rows_in table.new ≡ (after_all (sheet_lent sheet.now) (limits_in limits.now) (lent table.old bits.old stored.old copies.old tally.old) events.now names.now answers.old).memory.table)
        × (bits.new ≡ (after_all (sheet_lent sheet.now) (limits_in limits.now) (lent table.old bits.old stored.old copies.old tally.old) events.now names.now answers.old).memory.bits)
        × (states_in stored.new copies.new ≡ (after_all (sheet_lent sheet.now) (limits_in limits.now) (lent table.old bits.old stored.old copies.old tally.old) events.now names.now answers.old).slots)
        × (tally_in tally.new ≡ (after_all (sheet_lent sheet.now) (limits_in limits.now) (lent table.old bits.old stored.old copies.old tally.old) events.now names.now answers.old).tally)
        × (answers.new ≡ answers_all (sheet_lent sheet.now) (limits_in limits.now) (lent table.old bits.old stored.old copies.old tally.old) events.now names.now answers.old)
        × (result ≡ taken events.now answers.old) }
{
    let bytes = sheet_lent(sheet);
    batch::apply_all(
        table, bits, stored, copies, tally, &bytes, limits, events, names, answers,
    )
}

// What the holders of a name are charged, on the table that is lent with so many names issued: the refusal, 0 for none, the share of each, and
// what is left over. Nothing else is written.
pub fn kz_abi_charge(table: &[Row], issued: u32, name: u32, words: &mut [u32; 3])
    ensures { words.new ≡ charge_words (Charge.charge (rows_in table.now) issued (name_of name)) }
{
    let charged = charge(table, issued, Name(name));
    *words = charge_words(charged);
}
