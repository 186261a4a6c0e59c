// Event lines, written: a line is measured first and written second, so that a refusal leaves the buffer untouched.
ghost use Rattle.std.specs.Prelude.{◌≡◌, not, ◌&&◌, ◌++◌, ◌≤◌, length};
ghost use Rattle.model.specs.Refusals.{unfit_root, unfit_child};
ghost use Rattle.text.specs.Event.{spaced, writes_name, front, back, ending};
ghost use Rattle.text.specs.Put.{Room, Put};
ghost use Rattle.text.specs.Write.{Short, Writes, outcome, write_event};

use crate::spelling::Spelling;
use crate::{pieces, spelling};
use model::{Event, Name, Refusal, Span, Terms};
use table::masks::is_domain;
use table::terms::{fit_child, fit_root};

// How many bytes a line has before its ending: what stands before its form, its word and its numbers.
fn start_length(actor: u32, word: &[u8], numbers: &[u32]) -> usize
    requires { Short word.now numbers.now }
    ensures { (result ≡ length (front actor ++ (word.now ++ spaced numbers.now))) × (result ≤ 800) }
{
    pieces::front_length(actor) + word.len() + pieces::spaced_length(numbers)
}

// Writes these at the buffer's first bytes, and returns the position behind them.
fn put_start(out: &mut [u8], actor: u32, word: &[u8], numbers: &[u32]) -> usize
    requires { Room out.old 0 (front actor ++ (word.now ++ spaced numbers.now)) }
    ensures { Put out.old 0 (front actor ++ (word.now ++ spaced numbers.now)) out.new result }
{
    let past_front = pieces::put_front(out, 0, actor);
    let past_word = pieces::put_bytes(out, past_front, word);
    pieces::put_numbers(out, past_word, numbers)
}

// Internal. Writes a line that has no more than a word and numbers. A line that is not spelled so is refused.
pub(crate) fn write_line(
    spelled: bool,
    actor: u32,
    word: &[u8],
    numbers: &[u32],
    out: &mut [u8],
) -> Result<usize, Refusal>
    requires { Short word.now numbers.now }
    ensures { Writes spelled (front actor ++ (word.now ++ (spaced numbers.now ++ back actor))) out.old out.new result }
{
    if !spelled {
        return Err(Refusal::Misspelt);
    }
    let length = start_length(actor, word, numbers) + pieces::back_length(actor);
    if out.len() < length {
        return Err(Refusal::BufferTooShort);
    }
    let past_start = put_start(out, actor, word, numbers);
    let end = pieces::put_back(out, past_start, actor);
    Ok(end)
}

// Writes a line with a right, a kind, a mark and a mask of holders. A line that is not spelled so is refused.
fn write_with_terms(
    spelled: bool,
    actor: u32,
    word: &[u8],
    numbers: &[u32],
    terms: Terms,
    out: &mut [u8],
) -> Result<usize, Refusal>
    requires { Short word.now numbers.now }
    ensures { Writes spelled (front actor ++ (word.now ++ (spaced numbers.now ++ ending actor terms))) out.old out.new result }
{
    if !spelled {
        return Err(Refusal::Misspelt);
    }
    let total = start_length(actor, word, numbers) + pieces::ending_length(actor, terms);
    if out.len() < total {
        return Err(Refusal::BufferTooShort);
    }
    let past_start = put_start(out, actor, word, numbers);
    let end = pieces::put_ending(out, past_start, actor, terms);
    Ok(end)
}

// Whether a create has a spelling.
fn spells_create(spelling: Spelling, actor: u32, new: Option<Name>, terms: Terms) -> bool
    ensures { result ≡ (writes_name spelling new && not (unfit_root actor terms)) }
{
    spelling::writes_name(spelling, new) && fit_root(actor, terms)
}

// Whether a borrow has one.
fn spells_borrow(spelling: Spelling, actor: u32, new: Option<Name>, terms: Terms) -> bool
    ensures { result ≡ (writes_name spelling new && not (unfit_child actor terms)) }
{
    spelling::writes_name(spelling, new) && fit_child(actor, terms)
}

fn write_create(
    spelling: Spelling,
    actor: u32,
    new: Option<Name>,
    span: Span,
    terms: Terms,
    out: &mut [u8],
) -> Result<usize, Refusal>
    ensures { outcome result out.new ≡ write_event spelling actor (Event.Create new span terms) out.old }
{
    let spelled = spells_create(spelling, actor, new, terms);
    match new {
        None => {
            let numbers = [span.start.0, span.length];
            write_with_terms(spelled, actor, b"(create", &numbers, terms, out)
        }
        Some(made) => {
            let numbers = [made.0, span.start.0, span.length];
            write_with_terms(spelled, actor, b"(create", &numbers, terms, out)
        }
    }
}

fn write_borrow(
    spelling: Spelling,
    actor: u32,
    new: Option<Name>,
    name: Name,
    span: Span,
    terms: Terms,
    out: &mut [u8],
) -> Result<usize, Refusal>
    ensures { outcome result out.new ≡ write_event spelling actor (Event.Borrow new name span terms) out.old }
{
    let spelled = spells_borrow(spelling, actor, new, terms);
    match new {
        None => {
            let numbers = [name.0, span.start.0, span.length];
            write_with_terms(spelled, actor, b"(borrow", &numbers, terms, out)
        }
        Some(made) => {
            let numbers = [made.0, name.0, span.start.0, span.length];
            write_with_terms(spelled, actor, b"(borrow", &numbers, terms, out)
        }
    }
}

// Writes the line of an event by a domain in one of the two spellings at the buffer's first bytes and answers its length; refusal 2 for a domain
// above 63, for a right that is neither 1 nor 2, for a kind above 2 or a create's above 0, for a mark above 1 or a borrow's above 0, for a mask of
// holders without its maker, and for a name that is not written as in this spelling; and 11 where the line is longer than the buffer.
pub fn write_event(
    spelling: Spelling,
    actor: u32,
    event: Event,
    out: &mut [u8],
) -> Result<usize, Refusal>
    ensures { outcome result out.new ≡ write_event spelling actor event out.old }
{
    match event {
        Event::Create(new, span, terms) => write_create(spelling, actor, new, span, terms, out),
        Event::Borrow(new, name, span, terms) => {
            write_borrow(spelling, actor, new, name, span, terms, out)
        }
        Event::Read(name, span) => {
            let numbers = [name.0, span.start.0, span.length];
            write_line(is_domain(actor), actor, b"(read", &numbers, out)
        }
        Event::Write(name, span) => {
            let numbers = [name.0, span.start.0, span.length];
            write_line(is_domain(actor), actor, b"(write", &numbers, out)
        }
        Event::Drop(name) => {
            let numbers = [name.0];
            write_line(is_domain(actor), actor, b"(drop", &numbers, out)
        }
    }
}
