// Events as the words that C lends, and back. Only these functions know the layout.
// Kinds, rights and marks are numbers here (`DROP_ALL`, `MARK`, `BACK`, `event_with`, `byte_or`, `new_in`), as the words of C are (`kz_event`): any
// value may stand in them, and each is answered (`asked_in`, kelzoud_events/specs/Interface).
ghost use Rattle.std.specs.Prelude.{◌≡◌, cond, ltb};
ghost use Rattle.model.specs.Requests.{Unlimited, Single, caller};
ghost use Rattle.kelzoud_events.specs.Interface.{event_with, new_in, terms_in, event_in, asked_in, part, names_in, named_of, written_of, group_words, mark_words, back_words, words_of};

use model::{Addr, Asked, Event, Name, Span, Terms, Work};
use table::words::{high_half, joined, low_half};

// How many words an event has.
const WORDS: usize = 12;

// The words of an event.
pub type Words = [u32; WORDS];

// The kind that asks for names dropped together.
const DROP_ALL: u32 = 6;

// The kinds that ask for a mark and for a back.
const MARK: u32 = 7;

const BACK: u32 = 8;

// The event of a kind, 1 to 5, with a new name that is written or not. Another kind is an event that is refused 2 in itself.
fn event_with(
    new: Option<Name>,
    kind: u32,
    name: u32,
    start: u32,
    length: u32,
    given: Terms,
) -> Event
    ensures { result ≡ event_with new kind name start length given }
{
    let span = Span {
        start: Addr(start),
        length,
    };
    let none = Terms {
        right: 0,
        kind: 0,
        fresh: 0,
        holders: 0,
    };
    match kind {
        1 => Event::Create(new, span, Terms { kind: 0, ..given }),
        2 => Event::Borrow(new, Name(name), span, Terms { fresh: 0, ..given }),
        3 => Event::Read(Name(name), span),
        4 => Event::Write(Name(name), span),
        5 => Event::Drop(Name(name)),
        _ => Event::Create(new, span, none),
    }
}

// A word as a right, a kind or a mark: one above 255 is none, as the value that is given for it is none.
fn byte_or(word: u32, none: u8) -> u8
    ensures { result ≡ cond (ltb word 256) word none }
{
    u8::try_from(word).unwrap_or(none)
}

fn new_in(named: u32, written: u32) -> Option<Name>
    ensures { result ≡ new_in named written }
{
    if named == 0 {
        None
    } else {
        Some(Name(written))
    }
}

// What the words of a create or borrow give.
fn terms_in(w: Words) -> Terms
    ensures { result ≡ terms_in w }
{
    Terms {
        right: byte_or(w[4], 0),
        kind: byte_or(w[7], 3),
        fresh: byte_or(w[8], 2),
        holders: joined(w[10], w[11]),
    }
}

// What the words of an event ask for, and by which domain.
pub fn asked_in(w: Words) -> Asked
    ensures { result ≡ asked_in w }
{
    let actor = w[9];
    let slot = w[1];
    match w[0] {
        DROP_ALL => Asked::Work(Work::Group(actor)),
        MARK => Asked::Mark(actor, slot),
        BACK => Asked::Back(actor, slot),
        kind => {
            let new = new_in(w[5], w[6]);
            let event = event_with(new, kind, w[1], w[2], w[3], terms_in(w));
            Asked::Work(Work::Single(actor, event))
        }
    }
}

// A part of a list of names: none where it reaches past the end.
fn part_of(names: &[u32], start: u32, size: u32) -> &[u32]
    ensures { result.now ≡ part start size names.now }
{
    let from = start as usize;
    let to = from + size as usize;
    if to <= names.len() {
        &names[from..to]
    } else {
        &[]
    }
}

// The names that they point to.
pub fn names_in(w: Words, names: &[u32]) -> &[u32]
    ensures { result.now ≡ names_in w names.now }
{
    part_of(names, w[2], w[3])
}

// Whether a new name is written, and which.
fn named_of(new: Option<Name>) -> u32
    ensures { result ≡ named_of new }
{
    new.is_some() as u32
}

fn written_of(new: Option<Name>) -> u32
    ensures { result ≡ written_of new }
{
    match new {
        None => 0,
        Some(name) => name.0,
    }
}

// The words of an event by a domain.
pub fn words_of(actor: u32, event: Event) -> Words
    ensures { result ≡ words_of (Single (caller actor Unlimited) event) }
{
    match event {
        Event::Create(w, s, r) => {
            [
                1,
                0,
                s.start.0,
                s.length,
                r.right as u32,
                named_of(w),
                written_of(w),
                0,
                r.fresh as u32,
                actor,
                low_half(r.holders),
                high_half(r.holders),
            ]
        }
        Event::Borrow(w, n, s, r) => {
            [
                2,
                n.0,
                s.start.0,
                s.length,
                r.right as u32,
                named_of(w),
                written_of(w),
                r.kind as u32,
                0,
                actor,
                low_half(r.holders),
                high_half(r.holders),
            ]
        }
        Event::Read(n, s) => [3, n.0, s.start.0, s.length, 0, 0, 0, 0, 0, actor, 0, 0],
        Event::Write(n, s) => [4, n.0, s.start.0, s.length, 0, 0, 0, 0, 0, actor, 0, 0],
        Event::Drop(n) => [5, n.0, 0, 0, 0, 0, 0, 0, 0, actor, 0, 0],
    }
}

// Those of so many names dropped together, which are first in their list.
pub fn group_words(actor: u32, count: u32) -> Words
    ensures { result ≡ group_words actor count }
{
    [DROP_ALL, 0, 0, count, 0, 0, 0, 0, 0, actor, 0, 0]
}

// Those of a mark.
pub fn mark_words(actor: u32, slot: u32) -> Words
    ensures { result ≡ mark_words actor slot }
{
    [MARK, slot, 0, 0, 0, 0, 0, 0, 0, actor, 0, 0]
}

// Those of a back.
pub fn back_words(actor: u32, slot: u32) -> Words
    ensures { result ≡ back_words actor slot }
{
    [BACK, slot, 0, 0, 0, 0, 0, 0, 0, actor, 0, 0]
}
