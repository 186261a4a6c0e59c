// A run: the lines of a text, until one is refused.
ghost use Rattle.std.specs.Prelude.{◌≡◌, ◌≤◌, Err};
ghost use Rattle.text.specs.Line.{next_line};
ghost use Rattle.text.specs.Read.{same};
ghost use Rattle.table.specs.Lent;
ghost use Rattle.table.specs.Known.{FitAll};
ghost use Rattle.table.specs.States.{states_in};
ghost use Rattle.table.specs.Limits.{limits_in};
ghost use Rattle.table.specs.Sheets.{sheet_in};
ghost use Rattle.model.specs.declared.Refusal.TheVariants.{Disordered};
ghost use Rattle.trace.specs.Run;
ghost use Rattle.trace.specs.Run.{header, ran_of, TakesState, TakesGroup, Takes, RunsLines, Runs};

use model::{Asked, Refusal, Tally, Work};
use rules::{Outcome, Progress, count, steps};
use table::lent::{look_all, set_tally, tally_at};
use table::{Row, SheetBytes};
use text::spelling::Spelling;
use text::{group, lines, read, states};

// Where a run is refused: the refusal and its line number from 1 (0 for refusal 1 of what is lent).
#[derive(Clone, Copy)]
pub struct RefusedAt {
    pub refusal: Refusal,
    pub line: usize,
}

// What a run leaves of the tally, and its answer: the number of lines allowed, or where it is refused.
#[derive(Clone, Copy)]
pub struct RunOutcome {
    pub tally: Tally,
    pub answer: Result<usize, RefusedAt>,
}

// A line that is neither an event nor a group, on what is fit: a mark or a back, or refusal 2.
fn take_state(
    table: &mut [Row],
    live: usize,
    places: &mut [u16; 1024],
    bits: &mut [u8],
    stored: &mut [Row],
    copies: &mut [u8],
    tally: Tally,
    sheet: &SheetBytes,
    limits: &[u32],
    line: &[u8],
) -> Progress
    requires { FitAll table.old bits.old stored.old copies.old live tally.issued limits.now places.old }
    ensures { TakesState (sheet_in sheet.now) (limits_in limits.now) line.now table.old bits.old (states_in stored.old copies.old) tally table.new bits.new (states_in stored.new copies.new) result.outcome
        × FitAll table.new bits.new stored.new copies.new result.live result.outcome.tally.issued limits.now places.new }
{
    let found = states::read_state(line);
    match found {
        Ok(asked) => {
            // Neither has a use for names beside it.
            let none: [u32; 0] = [];
            steps::take(
                table, live, places, bits, stored, copies, tally, sheet, limits, asked, &none,
            )
        }
        Err(_) => {
            let counted = count::count_refused(tally);
            let outcome = Outcome {
                tally: counted,
                answer: Err(Refusal::Misspelt),
            };
            Progress { outcome, live }
        }
    }
}

// A line that is no event, on what is fit: the names that it drops together, a mark or a back, or refusal 2.
fn take_group(
    table: &mut [Row],
    live: usize,
    places: &mut [u16; 1024],
    bits: &mut [u8],
    stored: &mut [Row],
    copies: &mut [u8],
    tally: Tally,
    sheet: &SheetBytes,
    limits: &[u32],
    line: &[u8],
) -> Progress
    requires { FitAll table.old bits.old stored.old copies.old live tally.issued limits.now places.old }
    ensures { TakesGroup (sheet_in sheet.now) (limits_in limits.now) line.now table.old bits.old (states_in stored.old copies.old) tally table.new bits.new (states_in stored.new copies.new) result.outcome
        × FitAll table.new bits.new stored.new copies.new result.live result.outcome.tally.issued limits.now places.new }
{
    let mut names = [0u32; 64];
    let found = group::read_group(line, &mut names);
    match found {
        Ok((actor, count)) => {
            steps::take(
                table,
                live,
                places,
                bits,
                stored,
                copies,
                tally,
                sheet,
                limits,
                Asked::Work(Work::Group(actor)),
                &names[..count],
            )
        }
        Err(_) => take_state(
            table, live, places, bits, stored, copies, tally, sheet, limits, line,
        ),
    }
}

// A line on what is fit: the event that it spells, names dropped together, a mark or a back, or refusal 2.
fn take_line(
    table: &mut [Row],
    live: usize,
    places: &mut [u16; 1024],
    bits: &mut [u8],
    stored: &mut [Row],
    copies: &mut [u8],
    tally: Tally,
    sheet: &SheetBytes,
    limits: &[u32],
    spelling: Spelling,
    line: &[u8],
) -> Progress
    requires { FitAll table.old bits.old stored.old copies.old live tally.issued limits.now places.old }
    ensures { Takes (sheet_in sheet.now) (limits_in limits.now) spelling line.now table.old bits.old (states_in stored.old copies.old) tally table.new bits.new (states_in stored.new copies.new) result.outcome
        × FitAll table.new bits.new stored.new copies.new result.live result.outcome.tally.issued limits.now places.new }
{
    let found = read::read_event(spelling, line);
    match found {
        Ok((actor, event)) => {
            // An event has no use for names beside it.
            let none = [0u32];
            steps::take(
                table,
                live,
                places,
                bits,
                stored,
                copies,
                tally,
                sheet,
                limits,
                Asked::Work(Work::Single(actor, event)),
                &none,
            )
        }
        Err(_) => {
            take_group(
                table, live, places, bits, stored, copies, tally, sheet, limits, line,
            )
        }
    }
}

// The lines of a text on what is fit, where so many lines were taken before them. An event keeps it so, and what is known of the table, so
// neither is looked for again.
fn run_ordered(
    table: &mut [Row],
    live: usize,
    places: &mut [u16; 1024],
    bits: &mut [u8],
    stored: &mut [Row],
    copies: &mut [u8],
    tally: Tally,
    sheet: &SheetBytes,
    limits: &[u32],
    spelling: Spelling,
    before: usize,
    text: &[u8],
) -> RunOutcome
    requires { FitAll table.old bits.old stored.old copies.old live tally.issued limits.now places.old × (before ≤ 1) }
    ensures { RunsLines (sheet_in sheet.now) (limits_in limits.now) spelling before table.old bits.old (states_in stored.old copies.old) tally text.now table.new bits.new (states_in stored.new copies.new) result }
{
    let mut left = tally;
    let mut alive = live;
    let mut at = 0;
    let mut count = before;
    while at < text.len() {
        let line = lines::next_line(&text[at..]);
        let taken = take_line(
            table, alive, places, bits, stored, copies, left, sheet, limits, spelling, line,
        );
        let outcome = taken.outcome;
        alive = taken.live;
        left = outcome.tally;
        count += 1;
        let answer = outcome.answer;
        if let Err(refusal) = answer {
            let at = RefusedAt {
                refusal,
                line: count,
            };
            return RunOutcome {
                tally: left,
                answer: Err(at),
            };
        }
        at += line.len();
    }
    RunOutcome {
        tally: left,
        answer: Ok(count),
    }
}

// The first line of a text that writes its new names out.
const HEADER: &[u8] = b"(trace 2)\n";

// Whether the first line of a text is `(trace 2)`.
fn is_named(text: &[u8]) -> bool
    ensures { result ≡ same (next_line text.now) header }
{
    lines::next_line(text) == HEADER
}

// A text on what is fit. Its first line may say that new names are written out; that line is counted, and is no event.
fn run_text(
    table: &mut [Row],
    live: usize,
    places: &mut [u16; 1024],
    bits: &mut [u8],
    stored: &mut [Row],
    copies: &mut [u8],
    tally: Tally,
    sheet: &SheetBytes,
    limits: &[u32],
    text: &[u8],
) -> RunOutcome
    requires { FitAll table.old bits.old stored.old copies.old live tally.issued limits.now places.old }
    ensures { Runs (sheet_in sheet.now) (limits_in limits.now) table.old bits.old (states_in stored.old copies.old) tally text.now table.new bits.new (states_in stored.new copies.new) result }
{
    if is_named(text) {
        run_ordered(
            table,
            live,
            places,
            bits,
            stored,
            copies,
            tally,
            sheet,
            limits,
            Spelling::Named,
            1,
            &text[HEADER.len()..],
        )
    } else {
        run_ordered(
            table,
            live,
            places,
            bits,
            stored,
            copies,
            tally,
            sheet,
            limits,
            Spelling::Plain,
            0,
            text,
        )
    }
}

// What a run that is refused 1 leaves.
fn disordered(tally: Tally) -> RunOutcome
    ensures { (result.tally ≡ tally) × (result.answer ≡ Err (record { refusal = Disordered; line = 0 })) }
{
    RunOutcome {
        tally,
        answer: Err(RefusedAt {
            refusal: Refusal::Disordered,
            line: 0,
        }),
    }
}

// A run on any table, bits, memory for states and limits, and a tally by value: a table that is not in order, as above 1,024 rows, is refusal 1,
// and so are another number of bytes than 8,192, memory of another size, and limits that are refused.
pub fn run_lent(
    table: &mut [Row],
    bits: &mut [u8],
    stored: &mut [Row],
    copies: &mut [u8],
    tally: Tally,
    sheet: &SheetBytes,
    limits: &[u32],
    text: &[u8],
) -> RunOutcome
    ensures { Runs (sheet_in sheet.now) (limits_in limits.now) table.old bits.old (states_in stored.old copies.old) tally text.now table.new bits.new (states_in stored.new copies.new) result }
{
    let mut places = [0u16; 1024];
    let found = look_all(
        table,
        bits,
        stored,
        copies,
        tally.issued,
        limits,
        &mut places,
    );
    match found {
        Some(live) => {
            run_text(
                table,
                live,
                &mut places,
                bits,
                stored,
                copies,
                tally,
                sheet,
                limits,
                text,
            )
        }
        None => disordered(tally),
    }
}

// A run of a text on the table, the bits, the memory for states and the tally that are lent, by a sheet and with limits where some are lent: the
// number of lines allowed, or the refusal and its line.
pub fn run(
    table: &mut [Row],
    bits: &mut [u8],
    stored: &mut [Row],
    copies: &mut [u8],
    tally: &mut [u32; 7],
    sheet: &SheetBytes,
    limits: &[u32],
    text: &[u8],
) -> Result<usize, RefusedAt>
    ensures { ran_of result (Lent.lent table.new bits.new stored.new copies.new tally.new) ≡ Run.run (sheet_in sheet.now) (limits_in limits.now) (Lent.lent table.old bits.old stored.old copies.old tally.old) text.now }
{
    let t = tally_at(tally);
    let out = run_lent(table, bits, stored, copies, t, sheet, limits, text);
    let after = out.tally;
    set_tally(tally, after);
    let answer = out.answer;
    answer
}
