// Events in turn. What is lent is looked at once; what is known of it goes from each event to the next.
ghost use Rattle.std.specs.Prelude.{◌≡◌, [], ◌∷◌, ◌++◌, ◌≤◌, length, drop, replicate};
ghost use Rattle.table.specs.Words.{rows_in};
ghost use Rattle.table.specs.Sheets.{sheet_in};
ghost use Rattle.table.specs.Lent.{tally_in, lent};
ghost use Rattle.table.specs.Known.{FitAll};
ghost use Rattle.table.specs.Limits.{limits_in};
ghost use Rattle.table.specs.States.{states_in};
ghost use Rattle.rules.specs.Steps.{lends};
ghost use Rattle.kelzoud_events.specs.Batch.{taken, after_all, answers_all, Ran};

use crate::answers::answer_words;
use crate::events::{Words, asked_in, names_in};
use model::Tally;
use rules::steps::take;
use table::lent::{look_all, set_tally, tally_at};
use table::{Row, SheetBytes};

// The first m events on what is fit, refused ones too; the answer is the tally after them.
fn take_turns(
    table: &mut [Row],
    live: usize,
    places: &mut [u16; 1024],
    bits: &mut [u8],
    stored: &mut [Row],
    copies: &mut [u8],
    t: Tally,
    sheet: &SheetBytes,
    limits: &[u32],
    events: &[Words],
    names: &[u32],
    m: usize,
    answers: &mut [[u32; 2]],
) -> Tally
    requires { FitAll table.old bits.old stored.old copies.old live t.issued limits.now places.old × (m ≤ length events.now) × (m ≤ length answers.old) }
    ensures { Ran (sheet_in sheet.now) (limits_in limits.now) (lends (rows_in table.old) bits.old (states_in stored.old copies.old) t) events.now names.now m answers.old (lends (rows_in table.new) bits.new (states_in stored.new copies.new) result) answers.new }
{
    let mut tally = t;
    let mut alive = live;
    for i in 0..m {
        let words = events[i];
        let asked = asked_in(words);
        let part = names_in(words, names);
        let p = take(
            table, alive, places, bits, stored, copies, tally, sheet, limits, asked, part,
        );
        answers[i] = answer_words(p.outcome.answer);
        tally = p.outcome.tally;
        alive = p.live;
    }
    tally
}

// The first m answers are refusal 1.
fn refuse_all(answers: &mut [[u32; 2]], m: usize)
    requires { m ≤ length answers.old }
    ensures { answers.new ≡ replicate m (1 ∷ 0 ∷ []) ++ drop m answers.old }
{
    answers[..m].fill([1, 0]);
}

// The first m events on anything that is lent: where that is not fit, each is refusal 1.
fn apply_first(
    table: &mut [Row],
    bits: &mut [u8],
    stored: &mut [Row],
    copies: &mut [u8],
    tally: &mut [u32; 7],
    sheet: &SheetBytes,
    limits: &[u32],
    events: &[Words],
    names: &[u32],
    m: usize,
    answers: &mut [[u32; 2]],
)
    requires { (m ≤ length events.now) × (m ≤ length answers.old) }
    ensures { Ran (sheet_in sheet.now) (limits_in limits.now) (lent table.old bits.old stored.old copies.old tally.old) events.now names.now m answers.old (lent table.new bits.new stored.new copies.new tally.new) answers.new }
{
    let t = tally_at(tally);
    let mut places = [0u16; 1024];
    let found = look_all(table, bits, stored, copies, t.issued, limits, &mut places);
    match found {
        Some(live) => {
            let after = take_turns(
                table,
                live,
                &mut places,
                bits,
                stored,
                copies,
                t,
                sheet,
                limits,
                events,
                names,
                m,
                answers,
            );
            set_tally(tally, after);
        }
        None => refuse_all(answers, m),
    }
}

// As many events as there are answers for, on the table, the bits, the memory for states and the tally that are lent, by a sheet, with limits
// where some are lent; the answer is how many.
pub fn apply_all(
    table: &mut [Row],
    bits: &mut [u8],
    stored: &mut [Row],
    copies: &mut [u8],
    tally: &mut [u32; 7],
    sheet: &SheetBytes,
    limits: &[u32],
    events: &[Words],
    names: &[u32],
    answers: &mut [[u32; 2]],
) -> usize
    ensures { (rows_in table.new ≡ (after_all (sheet_in sheet.now) (limits_in limits.now) (lent table.old bits.old stored.old copies.old tally.old) events.now names.now answers.old).memory.table)
        × (bits.new ≡ (after_all (sheet_in sheet.now) (limits_in limits.now) (lent table.old bits.old stored.old copies.old tally.old) events.now names.now answers.old).memory.bits)
        × (states_in stored.new copies.new ≡ (after_all (sheet_in sheet.now) (limits_in limits.now) (lent table.old bits.old stored.old copies.old tally.old) events.now names.now answers.old).slots)
        × (tally_in tally.new ≡ (after_all (sheet_in sheet.now) (limits_in limits.now) (lent table.old bits.old stored.old copies.old tally.old) events.now names.now answers.old).tally)
        × (answers.new ≡ answers_all (sheet_in sheet.now) (limits_in limits.now) (lent table.old bits.old stored.old copies.old tally.old) events.now names.now answers.old)
        × (result ≡ taken events.now answers.old) }
{
    let m = events.len().min(answers.len());
    apply_first(
        table, bits, stored, copies, tally, sheet, limits, events, names, m, answers,
    );
    m
}
