// Whether an event is allowed, on a table in order: its checks in their order, and the first that holds.
ghost use Rattle.std.specs.Prelude.{◌≡◌, ◌∷◌, suc, ◌<◌, ◌≤◌, length};
ghost use Rattle.model.specs.Lists.{first};
ghost use Rattle.model.specs.Refusals.{not_a_domain, unfit_root, unfit_child, misplaced, misnamed, standing, usable, view_of};
ghost use Rattle.model.specs.Slots.{unstored};
ghost use Rattle.model.specs.Effects.{new_name};
ghost use Rattle.model.specs.Step.{verdict};
ghost use Rattle.model.specs.Refusals;
ghost use Rattle.model.specs.Answers.{verdict_of};
ghost use Rattle.model.specs.Requests.{Single, caller};
ghost use Rattle.model.specs.Bits.{bit_at};
ghost use Rattle.table.specs.Words.{rows_in};
ghost use Rattle.table.specs.Rows.{before, Rise, Orderly};
ghost use Rattle.table.specs.Known.{Sized};
ghost use Rattle.table.specs.Limits.{limits_in, Allowed};
ghost use Rattle.table.specs.Stands.{Lives, Stands, Serves, said_of, row_checks, room_for, child_checks, read_checks};

use crate::Row;
use crate::bits::span_written;
use crate::find::find;
use crate::limits::limit_reached;
use crate::masks::{has_bit, is_domain};
use crate::spans::{end, is_inside, is_legal, span_of};
use crate::terms::{fit_child, fit_root};
use crate::words::row_at;
use model::{Event, Name, Refusal, Span, Terms};

// Internal. Refusals 4 and 5.
pub(crate) fn living_place(table: &[Row], k: usize, issued: u32, u: Name) -> Result<usize, Refusal>
    requires { (k ≤ 1024) × Rise (rows_in table.now) k }
    ensures { Lives (rows_in table.now) k issued u result }
{
    if u.0 == 0 {
        return Err(Refusal::Unissued);
    }
    if issued < u.0 {
        return Err(Refusal::Unissued);
    }
    let q = find(table, k, u.0);
    if q < k { Ok(q) } else { Err(Refusal::Ended) }
}

// Internal. Refusals 4, 5 and 17.
pub(crate) fn place_of(
    table: &[Row],
    k: usize,
    issued: u32,
    actor: u32,
    u: Name,
) -> Result<usize, Refusal>
    requires { (k ≤ 1024) × Rise (rows_in table.now) k × (actor < 64) }
    ensures { Stands (rows_in table.now) k issued actor u result }
{
    let q = living_place(table, k, issued, u)?;
    let c = row_at(table, q);
    if has_bit(c.holders, actor) {
        Ok(q)
    } else {
        Err(Refusal::NoHolder)
    }
}

// Refusals 3 to 7 and 17: a name to be used by a domain on a span, with a right.
// The right is a number, here and in `judge_child`, since it is compared with the word of a row (`usable`, model/specs/Refusals).
fn usable_place(
    table: &[Row],
    k: usize,
    issued: u32,
    actor: u32,
    u: Name,
    s: Span,
    right: u32,
) -> Result<usize, Refusal>
    requires { (k ≤ 1024) × Rise (rows_in table.now) k × (actor < 64) }
    ensures { Serves (rows_in table.now) k issued actor u s right result }
{
    if !is_legal(s) {
        return Err(Refusal::IllegalSpan);
    }
    let q = place_of(table, k, issued, actor, u)?;
    let c = row_at(table, q);
    if !is_inside(s, span_of(c)) {
        return Err(Refusal::OutsideSpan);
    }
    if c.right < right {
        Err(Refusal::ReadOnly)
    } else {
        Ok(q)
    }
}

// Refusal 12: the written name is not the issued number plus one.
fn is_misnamed(issued: u32, w: Option<Name>) -> bool
    requires { issued ≤ 1000000 }
    ensures { result ≡ misnamed issued w }
{
    match w {
        None => false,
        Some(x) => x.0 != issued + 1,
    }
}

// Refusals 10 and 18, which stands in its place where limits are lent.
fn row_answer(
    table: &[Row],
    k: usize,
    issued: u32,
    limits: &[u32],
    actor: u32,
) -> Result<Name, Refusal>
    requires { (k ≤ length table.now) × (issued ≤ 1000000) × (k ≤ 1024) }
    ensures { verdict_of result ≡ verdict (first (row_checks (rows_in table.now) k (length table.now) (limits_in limits.now) actor)) (suc issued) }
{
    if limits.len() == 0 {
        if table.len() <= k {
            return Err(Refusal::TableFull);
        }
        return Ok(Name(issued + 1));
    }
    if limit_reached(table, k, limits, actor) {
        return Err(Refusal::LimitReached);
    }
    Ok(Name(issued + 1))
}

// Refusals 9, 12, and 10 or 18: room for what a domain makes.
fn room_answer(
    table: &[Row],
    k: usize,
    issued: u32,
    limits: &[u32],
    actor: u32,
    w: Option<Name>,
) -> Result<Name, Refusal>
    requires { (k ≤ length table.now) × (issued ≤ 1000000) × (k ≤ 1024) }
    ensures { verdict_of result ≡ verdict (first (room_for (rows_in table.now) k (length table.now) issued (limits_in limits.now) actor w)) (suc issued) }
{
    if 1000000 <= issued {
        return Err(Refusal::NamesSpent);
    }
    if is_misnamed(issued, w) {
        return Err(Refusal::Misnamed);
    }
    row_answer(table, k, issued, limits, actor)
}

// Refusal 3 of a create: a `fresh` one ends at 65,536 or below.
fn is_misplaced(r: Terms, s: Span) -> bool
    ensures { result ≡ misplaced r s }
{
    if !is_legal(s) {
        return true;
    }
    if r.fresh == 1 { 65536 < end(s) } else { false }
}

fn judge_create(
    table: &[Row],
    k: usize,
    issued: u32,
    limits: &[u32],
    actor: u32,
    w: Option<Name>,
    s: Span,
    r: Terms,
) -> Result<Name, Refusal>
    requires { (k ≤ length table.now) × (issued ≤ 1000000) × (k ≤ 1024) }
    ensures { verdict_of result ≡ verdict (first ((2, unfit_root actor r) ∷ (3, misplaced r s) ∷ room_for (rows_in table.now) k (length table.now) issued (limits_in limits.now) actor w)) (suc issued) }
{
    if !fit_root(actor, r) {
        return Err(Refusal::Misspelt);
    }
    if is_misplaced(r, s) {
        return Err(Refusal::IllegalSpan);
    }
    room_answer(table, k, issued, limits, actor, w)
}

// A borrow that gives what may be given.
fn judge_child(
    table: &[Row],
    k: usize,
    issued: u32,
    limits: &[u32],
    actor: u32,
    w: Option<Name>,
    u: Name,
    s: Span,
    right: u32,
) -> Result<Name, Refusal>
    requires { (k ≤ 1024) × Rise (rows_in table.now) k × (issued ≤ 1000000) × (actor < 64) }
    ensures { verdict_of result ≡ verdict (first (child_checks (rows_in table.now) k (length table.now) issued (limits_in limits.now) actor w u s right)) (suc issued) }
{
    let q = usable_place(table, k, issued, actor, u, s, right)?;
    let c = row_at(table, q);
    if 64 <= c.depth {
        return Err(Refusal::TooDeep);
    }
    room_answer(table, k, issued, limits, actor, w)
}

fn judge_borrow(
    table: &[Row],
    k: usize,
    issued: u32,
    limits: &[u32],
    actor: u32,
    w: Option<Name>,
    u: Name,
    s: Span,
    r: Terms,
) -> Result<Name, Refusal>
    requires { (k ≤ 1024) × Rise (rows_in table.now) k × (issued ≤ 1000000) }
    ensures { verdict_of result ≡ verdict (first ((2, unfit_child actor r) ∷ child_checks (rows_in table.now) k (length table.now) issued (limits_in limits.now) actor w u s r.right)) (suc issued) }
{
    if !fit_child(actor, r) {
        return Err(Refusal::Misspelt);
    }
    judge_child(table, k, issued, limits, actor, w, u, s, r.right as u32)
}

// A read by a domain: refusal 16, of a marked capability, after those of its place.
fn read_answer(
    table: &[Row],
    k: usize,
    bits: &[u8],
    issued: u32,
    actor: u32,
    u: Name,
    s: Span,
) -> Result<Name, Refusal>
    requires { Orderly (rows_in table.now) (length table.now) k issued × Sized bits.now × (actor < 64) }
    ensures { verdict_of result ≡ verdict (first (read_checks (before (rows_in table.now) k) issued (bit_at bits.now) actor u s)) 0 }
{
    let q = usable_place(table, k, issued, actor, u, s, 1)?;
    let c = row_at(table, q);
    if c.fresh != 1 {
        return Ok(Name(0));
    }
    if span_written(bits, s) {
        Ok(Name(0))
    } else {
        Err(Refusal::NotWritten)
    }
}

fn judge_read(
    table: &[Row],
    k: usize,
    bits: &[u8],
    issued: u32,
    actor: u32,
    u: Name,
    s: Span,
) -> Result<Name, Refusal>
    requires { Orderly (rows_in table.now) (length table.now) k issued × Sized bits.now }
    ensures { verdict_of result ≡ verdict (first ((2, not_a_domain actor) ∷ read_checks (before (rows_in table.now) k) issued (bit_at bits.now) actor u s)) 0 }
{
    if !is_domain(actor) {
        return Err(Refusal::Misspelt);
    }
    read_answer(table, k, bits, issued, actor, u, s)
}

fn judge_write(
    table: &[Row],
    k: usize,
    issued: u32,
    actor: u32,
    u: Name,
    s: Span,
) -> Result<Name, Refusal>
    requires { (k ≤ 1024) × Rise (rows_in table.now) k }
    ensures { verdict_of result ≡ verdict (first ((2, not_a_domain actor) ∷ usable (before (rows_in table.now) k) issued actor u s 2)) 0 }
{
    if !is_domain(actor) {
        return Err(Refusal::Misspelt);
    }
    usable_place(table, k, issued, actor, u, s, 2)?;
    Ok(Name(0))
}

fn judge_drop(table: &[Row], k: usize, issued: u32, actor: u32, u: Name) -> Result<Name, Refusal>
    requires { (k ≤ 1024) × Rise (rows_in table.now) k }
    ensures { verdict_of result ≡ verdict (first ((2, not_a_domain actor) ∷ standing (before (rows_in table.now) k) issued actor u)) 0 }
{
    if !is_domain(actor) {
        return Err(Refusal::Misspelt);
    }
    place_of(table, k, issued, actor, u)?;
    Ok(Name(0))
}

// The answer to an event. Internal: the caller shows that the table is in order, that there are as many bits as there are to be, and that the
// limits are not refused.
pub(crate) fn judge(
    table: &[Row],
    k: usize,
    bits: &[u8],
    issued: u32,
    limits: &[u32],
    actor: u32,
    e: Event,
) -> Result<Name, Refusal>
    requires { Orderly (rows_in table.now) (length table.now) k issued × Sized bits.now × Allowed table.now limits.now }
    ensures { verdict_of result ≡ verdict (Refusals.judge (view_of (rows_in table.now) bits.now unstored issued) (Single (caller actor (limits_in limits.now)) e)) (new_name issued (Single (caller actor (limits_in limits.now)) e)) }
{
    match e {
        Event::Create(w, s, r) => judge_create(table, k, issued, limits, actor, w, s, r),
        Event::Borrow(w, u, s, r) => judge_borrow(table, k, issued, limits, actor, w, u, s, r),
        Event::Read(u, s) => judge_read(table, k, bits, issued, actor, u, s),
        Event::Write(u, s) => judge_write(table, k, issued, actor, u, s),
        Event::Drop(u) => judge_drop(table, k, issued, actor, u),
    }
}
