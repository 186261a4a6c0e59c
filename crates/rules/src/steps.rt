// One request on a lent table, its written bits, what is stored and a tally.
ghost use Rattle.std.specs.Prelude.{◌≡◌, true, false, [], ◌∷◌, ◌<◌, ◌≤◌, length};
ghost use Rattle.model.specs.Lists.{any};
ghost use Rattle.model.specs.Table.{row, named, lookup};
ghost use Rattle.model.specs.Effects.{after_access, rows_without, rows_after};
ghost use Rattle.model.specs.Answers.{verdict_of};
ghost use Rattle.model.specs.Bits.{bits_after};
ghost use Rattle.model.specs.Requests.{Unlimited, Single, caller, work_of, request_of};
ghost use Rattle.table.specs.Words.{rows_in};
ghost use Rattle.table.specs.Sheets.{sheet_in};
ghost use Rattle.table.specs.Rows.{before, Rise, Found, Places, Orderly};
ghost use Rattle.table.specs.Known.{Known, Sized, Fit, FitAll};
ghost use Rattle.table.specs.Limits.{limits_in};
ghost use Rattle.table.specs.States.{states_in};
ghost use Rattle.rules.specs.Engine.{Ready, Downward, Quiet, Most, kept, Settled};
ghost use Rattle.rules.specs.Steps.{Stepped, Worked, AllowedOn};

use crate::count::{count_allowed, count_refused};
use crate::marks::{first_owned, first_struck, own_of_names, relate, spread_access, spread_names};
use crate::settle::{lower, settle};
use crate::states::{take_back, take_mark};
use crate::{Outcome, Progress};
use model::{Access, Asked, Cap, Event, Name, Refusal, Span, Tally, Terms, Work};
use table::bits::put_span;
use table::find::find;
use table::lent::{look, look_all};
use table::requests::judge_request;
use table::words::{row_at, set_row};
use table::{Row, SheetBytes};

// The row of a new capability.
// Its kind and its mark are numbers, as the words of a row are (`Cap`).
fn new_row(
    name: u32,
    parent: u32,
    s: Span,
    depth: u32,
    kind: u8,
    fresh: u32,
    maker: u32,
    given: Terms,
) -> Cap
    ensures { result ≡ row (record { name = name; parent = parent; span = s; kind = kind; fresh = fresh; maker = maker; holders = given.holders }) given.right depth }
{
    let start = s.start;
    Cap {
        name: Name(name),
        parent: Name(parent),
        start,
        length: s.length,
        right: given.right as u32,
        depth,
        kind: kind as u32,
        fresh,
        maker,
        holders: given.holders,
    }
}

// The first empty row gets it, where q is its parent's place; the answer is how many rows live then.
fn append(table: &mut [Row], k: usize, places: &mut [u16; 1024], c: Cap, q: usize) -> usize
    requires { (k < length table.old) × Ready table.old k × Places (rows_in table.old) k places.old
        × Found (rows_in table.old) k c.parent.0 q × (0 < c.name.0) }
    ensures { Settled (rows_in table.new) (length table.old) result (c ∷ before (rows_in table.old) k) places.new }
{
    set_row(table, k, c);
    places[k] = q as u16;
    k + 1
}

// The row of a name that is there, at q.
fn row_of(table: &[Row], k: usize, u: u32, q: usize) -> Cap
    requires { (k ≤ 1024) × Rise (rows_in table.now) k × (any (named u) (before (rows_in table.now) k) ≡ true) × Found (rows_in table.now) k u q }
    ensures { result ≡ lookup u (before (rows_in table.now) k) }
{
    row_at(table, q)
}

// The first k rows after their marks, of which none is above `most`; the answer is how many are left. Where no row ends, each parent stays
// where it is.
fn revoke_rows(
    table: &mut [Row],
    first: usize,
    k: usize,
    marks: &[u8; 1024],
    most: u8,
    places: &mut [u16; 1024],
) -> usize
    requires { Ready table.old k × Places (rows_in table.old) k places.old × Downward (rows_in table.old) k marks.now × Quiet k first marks.now × Most k marks.now most }
    ensures { Settled (rows_in table.new) (length table.old) result (kept marks.now (rows_in table.old) k) places.new }
{
    if most < 2 {
        lower(table, first, k, marks);
        return k;
    }
    settle(table, first, k, marks, places)
}

// A read or write through the name u.
fn access_rows(
    table: &mut [Row],
    k: usize,
    places: &mut [u16; 1024],
    sheet: &SheetBytes,
    a: Access,
    u: u32,
    s: Span,
) -> usize
    requires { Ready table.old k × Places (rows_in table.old) k places.old }
    ensures { Settled (rows_in table.new) (length table.old) result (after_access (sheet_in sheet.now) a u s (before (rows_in table.old) k)) places.new }
{
    let mut relation = [0u8; 1024];
    let in_cell = relate(table, k, places, u, &mut relation);
    let first = first_struck(table, k, &relation, s);
    let mut marks = [0u8; 1024];
    let most = spread_access(
        table, first, k, places, &relation, in_cell, sheet, a, s, &mut marks,
    );
    revoke_rows(table, first, k, &marks, most, places)
}

// Names dropped together.
fn drop_names(table: &mut [Row], k: usize, places: &mut [u16; 1024], names: &[u32]) -> usize
    requires { Ready table.old k × Places (rows_in table.old) k places.old }
    ensures { Settled (rows_in table.new) (length table.old) result (rows_without names.now (before (rows_in table.old) k)) places.new }
{
    let mut owned = [0u8; 1025];
    own_of_names(table, k, names, &mut owned);
    let first = first_owned(&owned, k);
    let mut marks = [0u8; 1024];
    spread_names(table, first, k, places, &owned, &mut marks);
    settle(table, first, k, &marks, places)
}

// What an allowed event does to the rows; the answer is how many live then. A create is a write through its new name, which has no row
// yet and so is in the subtree of none; then that name's row is added.
fn change_event(
    table: &mut [Row],
    k: usize,
    places: &mut [u16; 1024],
    sheet: &SheetBytes,
    issued: u32,
    actor: u32,
    e: Event,
) -> usize
    requires { Orderly (rows_in table.old) (length table.old) k issued × AllowedOn (rows_in table.old) issued (Work.Single actor e) [] × Places (rows_in table.old) k places.old }
    ensures { Settled (rows_in table.new) (length table.old) result (rows_after (sheet_in sheet.now) issued (before (rows_in table.old) k) (Single (caller actor Unlimited) e)) places.new }
{
    match e {
        Event::Create(_, s, r) => {
            let c = new_row(issued + 1, 0, s, 1, 0, r.fresh as u32, actor, r);
            let left = access_rows(table, k, places, sheet, Access::Writing, issued + 1, s);
            append(table, left, places, c, left)
        }
        Event::Borrow(_, u, s, r) => {
            let q = find(table, k, u.0);
            let p = row_of(table, k, u.0, q);
            let c = new_row(issued + 1, u.0, s, p.depth + 1, r.kind, p.fresh, actor, r);
            append(table, k, places, c, q)
        }
        Event::Read(u, s) => access_rows(table, k, places, sheet, Access::Reading, u.0, s),
        Event::Write(u, s) => access_rows(table, k, places, sheet, Access::Writing, u.0, s),
        Event::Drop(u) => {
            let names = [u.0];
            drop_names(table, k, places, &names)
        }
    }
}

// What allowed work does to the rows; the answer is how many live then.
fn change(
    table: &mut [Row],
    k: usize,
    places: &mut [u16; 1024],
    sheet: &SheetBytes,
    issued: u32,
    work: Work,
    names: &[u32],
) -> usize
    requires { Known table.old k issued places.old × AllowedOn (rows_in table.old) issued work names.now }
    ensures { Settled (rows_in table.new) (length table.old) result (rows_after (sheet_in sheet.now) issued (before (rows_in table.old) k) (work_of Unlimited work names.now)) places.new }
{
    match work {
        Work::Single(actor, e) => change_event(table, k, places, sheet, issued, actor, e),
        Work::Group(_) => drop_names(table, k, places, names),
    }
}

// What an allowed event does to the bits: a create clears those of its addresses, and a write sets them.
fn event_bits(bits: &mut [u8], e: Event)
    requires { Sized bits.old }
    ensures { bits.new ≡ bits_after bits.old (Single (caller 0 Unlimited) e) }
{
    match e {
        Event::Create(_, s, _) => put_span(bits, false, s),
        Event::Borrow(_, _, _, _) => {}
        Event::Read(_, _) => {}
        Event::Write(_, s) => put_span(bits, true, s),
        Event::Drop(_) => {}
    }
}

// What allowed work does to them. Names dropped together leave them as they are.
fn change_bits(bits: &mut [u8], work: Work)
    requires { Sized bits.old }
    ensures { bits.new ≡ bits_after bits.old (work_of Unlimited work []) }
{
    match work {
        Work::Single(_, e) => event_bits(bits, e),
        Work::Group(_) => {}
    }
}

// Work on what is fit: a table in order, of which it is known how many rows live and where each row's parent stands, with as many bits as there
// are to be, and limits that are not refused. All that is known after it too, so that a run of requests looks for it once. The names are those
// of names dropped together.
pub fn take_work(
    table: &mut [Row],
    k: usize,
    places: &mut [u16; 1024],
    bits: &mut [u8],
    t: Tally,
    sheet: &SheetBytes,
    limits: &[u32],
    work: Work,
    names: &[u32],
) -> Progress
    requires { Fit table.old bits.old k t.issued limits.now places.old }
    ensures { Worked (sheet_in sheet.now) table.old bits.old t (work_of (limits_in limits.now) work names.now) table.new bits.new result.outcome
        × Fit table.new bits.new result.live result.outcome.tally.issued limits.now places.new }
{
    let a = judge_request(table, k, bits, t.issued, limits, work, names);
    match a {
        Err(x) => {
            let outcome = Outcome {
                tally: count_refused(t),
                answer: Err(x),
            };
            Progress { outcome, live: k }
        }
        Ok(x) => {
            let live = change(table, k, places, sheet, t.issued, work, names);
            change_bits(bits, work);
            let outcome = Outcome {
                tally: count_allowed(work, t),
                answer: Ok(x),
            };
            Progress { outcome, live }
        }
    }
}

// A request on all that is lent, where that is fit: work, a mark or a back. It is so after it too. The names are those of names dropped together.
pub fn take(
    table: &mut [Row],
    k: usize,
    places: &mut [u16; 1024],
    bits: &mut [u8],
    stored: &mut [Row],
    copies: &mut [u8],
    t: Tally,
    sheet: &SheetBytes,
    limits: &[u32],
    asked: Asked,
    names: &[u32],
) -> Progress
    requires { FitAll table.old bits.old stored.old copies.old k t.issued limits.now places.old }
    ensures { Stepped (sheet_in sheet.now) table.old bits.old (states_in stored.old copies.old) t (request_of (limits_in limits.now) asked names.now) table.new bits.new (states_in stored.new copies.new) result.outcome
        × FitAll table.new bits.new stored.new copies.new result.live result.outcome.tally.issued limits.now places.new }
{
    match asked {
        Asked::Work(work) => { take_work(table, k, places, bits, t, sheet, limits, work, names) }
        Asked::Mark(actor, slot) => take_mark(table, k, bits, stored, copies, t, actor, slot),
        Asked::Back(actor, slot) => {
            take_back(
                table, k, places, bits, stored, copies, t, limits, actor, slot,
            )
        }
    }
}

// What a request that is refused 1 leaves.
fn disordered(t: Tally) -> Outcome
    ensures { (result.tally ≡ t) × (verdict_of result.answer ≡ record { refusal = 1; name = 0 }) }
{
    Outcome {
        tally: t,
        answer: Err(Refusal::Disordered),
    }
}

// Work on any table, any bits and any limits: a table that is not in order, as above 1,024 rows, is refusal 1, and so are another number
// of bytes than 8,192, and limits that are refused.
pub(crate) fn step_work(
    table: &mut [Row],
    bits: &mut [u8],
    t: Tally,
    sheet: &SheetBytes,
    limits: &[u32],
    work: Work,
    names: &[u32],
) -> Outcome
    ensures { Worked (sheet_in sheet.now) table.old bits.old t (work_of (limits_in limits.now) work names.now) table.new bits.new result }
{
    let mut places = [0u16; 1024];
    let found = look(table, bits, t.issued, limits, &mut places);
    match found {
        Some(live) => {
            let p = take_work(
                table,
                live,
                &mut places,
                bits,
                t,
                sheet,
                limits,
                work,
                names,
            );
            let outcome = p.outcome;
            outcome
        }
        None => disordered(t),
    }
}

// A request on all that is lent, whatever that is: where it is not fit, refusal 1.
pub(crate) fn step(
    table: &mut [Row],
    bits: &mut [u8],
    stored: &mut [Row],
    copies: &mut [u8],
    t: Tally,
    sheet: &SheetBytes,
    limits: &[u32],
    asked: Asked,
    names: &[u32],
) -> Outcome
    ensures { Stepped (sheet_in sheet.now) table.old bits.old (states_in stored.old copies.old) t (request_of (limits_in limits.now) asked names.now) table.new bits.new (states_in stored.new copies.new) result }
{
    let mut places = [0u16; 1024];
    let found = look_all(table, bits, stored, copies, t.issued, limits, &mut places);
    match found {
        Some(live) => {
            let p = take(
                table,
                live,
                &mut places,
                bits,
                stored,
                copies,
                t,
                sheet,
                limits,
                asked,
                names,
            );
            let outcome = p.outcome;
            outcome
        }
        None => disordered(t),
    }
}
