// Event lines, read: the event that a line can be the spelling of is guessed, and accepted when it writes back to the same
// bytes. So a line in any other spelling is refused by construction.
ghost use Rattle.std.specs.Prelude.{◌≡◌, true, ◌≤◌, ◌<◌, length, get_or};
ghost use Rattle.text.specs.Event.{spell, has_spelling};
ghost use Rattle.text.specs.Read.{name_of, span_of, right_of, kind_of, fresh_at, actor_of, form_of, from_name, new_name_of, create_of, borrow_of, guess, is_spelling, read_answer, read_event};

use crate::spelling::Spelling;
use crate::{lines, masks, numbers, pieces, write};
use model::{Addr, Event, Name, Refusal, Span, Terms};
use table::masks::is_domain;

// Internal. The byte at an index, 0 past the end.
// No byte that is asked for is 0, so that no `Option` is needed.
pub fn byte_at(text: &[u8], index: usize) -> u8
    ensures { result ≡ get_or text.now index 0 }
{
    text.get(index).copied().unwrap_or(0)
}

fn name_of(word: &[u8]) -> Name
    ensures { result ≡ name_of word.now }
{
    Name(numbers::number(word))
}

fn span_of(start: &[u8], length: &[u8]) -> Span
    ensures { result ≡ span_of start.now length.now }
{
    Span {
        start: Addr(numbers::number(start)),
        length: numbers::number(length),
    }
}

// Internal. The right that a word spells: `ro` has an o.
// Here, in `kind_of` and in `fresh_at` the answer is a number, since it is put into `Terms`.
pub fn right_of(word: &[u8]) -> u8
    ensures { result ≡ right_of word.now }
{
    if byte_at(word, 1) == b'o' { 1 } else { 2 }
}

// Internal. The kind that the text from a right's word on spells: its third letter, behind the right and a space, is w in `raw` and l in `cell`,
// and where there is neither it is a reference. The first letters would not do: those of a mask can be the same.
pub fn kind_of(word: &[u8]) -> u8
    ensures { result ≡ kind_of word.now }
{
    match byte_at(word, 5) {
        b'w' => 1,
        b'l' => 2,
        _ => 0,
    }
}

// Internal. The mark that such a text spells, where the second letter of the word that it may have is at this place.
pub fn fresh_at(word: &[u8], index: usize) -> u8
    ensures { result ≡ fresh_at word.now index }
{
    if byte_at(word, index) == b'r' { 1 } else { 0 }
}

// Internal. The domain that acts by a line: the number behind `as`, and 0 where there is none.
// Domain 0 is who acts in such a line (`actor_of`, text/specs/Read), so nothing is missing there.
pub(crate) fn actor_of(line: &[u8]) -> u32
    ensures { result ≡ actor_of line.now }
{
    if byte_at(line, 1) == b'a' {
        numbers::number(lines::after_space(line))
    } else {
        0
    }
}

// Internal. The line from its form on: what stands behind `as` and the domain, and the whole line where there is no `as`.
pub(crate) fn form_of(line: &[u8]) -> &[u8]
    ensures { result.now ≡ form_of line.now }
{
    if byte_at(line, 1) == b'a' {
        lines::after_space(lines::after_space(line))
    } else {
        line
    }
}

// The form of a create or borrow from its new name on; the whole form where the spelling writes none.
fn from_name(spelling: Spelling, form: &[u8]) -> &[u8]
    ensures { result.now ≡ from_name spelling form.now }
{
    match spelling {
        Spelling::Plain => form,
        Spelling::Named => lines::after_space(form),
    }
}

// The new name that this begins with.
fn new_name_of(spelling: Spelling, word: &[u8]) -> Option<Name>
    ensures { result ≡ new_name_of spelling word.now }
{
    match spelling {
        Spelling::Plain => None,
        Spelling::Named => Some(name_of(word)),
    }
}

fn create_of(spelling: Spelling, actor: u32, part: &[u8]) -> Event
    requires { actor < 64 }
    ensures { result ≡ create_of spelling actor part.now }
{
    let start = lines::after_space(part);
    let length = lines::after_space(start);
    let right = lines::after_space(length);
    let fresh = fresh_at(right, 4);
    let terms = Terms {
        right: right_of(right),
        kind: 0,
        fresh,
        holders: masks::mask_at(actor, right, 2 + pieces::fresh_length(fresh as u32)),
    };
    Event::Create(new_name_of(spelling, part), span_of(start, length), terms)
}

fn borrow_of(spelling: Spelling, actor: u32, part: &[u8]) -> Event
    requires { actor < 64 }
    ensures { result ≡ borrow_of spelling actor part.now }
{
    let name = lines::after_space(part);
    let start = lines::after_space(name);
    let length = lines::after_space(start);
    let right = lines::after_space(length);
    let kind = kind_of(right);
    let terms = Terms {
        right: right_of(right),
        kind,
        fresh: 0,
        holders: masks::mask_at(actor, right, 2 + pieces::kind_length(kind as u32)),
    };
    Event::Borrow(
        new_name_of(spelling, part),
        name_of(name),
        span_of(start, length),
        terms,
    )
}

// The one event by a domain whose form this can be. Nothing is checked here.
fn guessed(spelling: Spelling, actor: u32, form: &[u8]) -> Event
    requires { actor < 64 }
    ensures { result ≡ guess spelling actor form.now }
{
    let kind = byte_at(form, 1);
    if kind == b'c' {
        return create_of(spelling, actor, from_name(spelling, form));
    }
    if kind == b'b' {
        return borrow_of(spelling, actor, from_name(spelling, form));
    }
    let first = lines::after_space(form);
    let second = lines::after_space(first);
    let third = lines::after_space(second);
    if kind == b'r' {
        Event::Read(name_of(first), span_of(second, third))
    } else if kind == b'w' {
        Event::Write(name_of(first), span_of(second, third))
    } else {
        Event::Drop(name_of(first))
    }
}

// Whether a line is the spelling of an event by a domain, the longest of which has 86 bytes.
fn is_spelling(spelling: Spelling, line: &[u8], actor: u32, event: Event) -> bool
    requires { has_spelling spelling actor event ≡ true → length (spell actor event) ≤ 86 }
    ensures { result ≡ is_spelling spelling line.now actor event }
{
    let mut buffer = [0u8; 86];
    let written = write::write_event(spelling, actor, event, &mut buffer);
    let Ok(length) = written else {
        return false;
    };
    line == &buffer[..length]
}

// Reads a line by itself: the domain and the event whose spelling it is, in one of the two, its newline included, or refusal 2.
pub fn read_event(spelling: Spelling, line: &[u8]) -> Result<(u32, Event), Refusal>
    ensures { read_answer result ≡ read_event spelling line.now }
{
    let actor = actor_of(line);
    if !is_domain(actor) {
        return Err(Refusal::Misspelt);
    }
    let form = form_of(line);
    let event = guessed(spelling, actor, form);
    if is_spelling(spelling, line, actor, event) {
        Ok((actor, event))
    } else {
        Err(Refusal::Misspelt)
    }
}
