// What was answered, in words and numbers.
ghost use Rattle.std.specs.Prelude.{◌≡◌};
ghost use Rattle.model.specs.Answers.{number};

use model::{Event, Name, Refusal, Span, Terms};

pub fn say(rt: &HostRuntime, text: &[u8]) {
    let _ = rt.stdout().write_all(text);
}

// A number's digits.
pub fn say_decimal(rt: &HostRuntime, n: u64) {
    let _ = rt.print(n);
}

pub fn say_length(rt: &HostRuntime, n: usize) {
    say(rt, b" ");
    say_decimal(rt, n as u64);
}

pub fn say_number(rt: &HostRuntime, n: u32) {
    say(rt, b" ");
    say_decimal(rt, n as u64);
}

fn say_byte(rt: &HostRuntime, n: u8) {
    say(rt, b" ");
    say_decimal(rt, n as u64);
}

fn say_name(rt: &HostRuntime, name: Name) {
    say_number(rt, name.0);
}

fn say_span(rt: &HostRuntime, span: Span) {
    say_number(rt, span.start.0);
    say_number(rt, span.length);
}

// The number of a refusal.
fn number_of(refusal: Refusal) -> u32
    ensures { result ≡ number refusal }
{
    match refusal {
        Refusal::Disordered => 1,
        Refusal::Misspelt => 2,
        Refusal::IllegalSpan => 3,
        Refusal::Unissued => 4,
        Refusal::Ended => 5,
        Refusal::OutsideSpan => 6,
        Refusal::ReadOnly => 7,
        Refusal::TooDeep => 8,
        Refusal::NamesSpent => 9,
        Refusal::TableFull => 10,
        Refusal::BufferTooShort => 11,
        Refusal::Misnamed => 12,
        Refusal::Misgrouped => 13,
        Refusal::GivenTwice => 14,
        Refusal::NotGiven => 15,
        Refusal::NotWritten => 16,
        Refusal::NoHolder => 17,
        Refusal::LimitReached => 18,
        Refusal::NothingStored => 19,
    }
}

pub fn say_refusal(rt: &HostRuntime, refusal: Refusal) {
    say(rt, b" refused");
    say_number(rt, number_of(refusal));
}

fn say_new(rt: &HostRuntime, new: Option<Name>) {
    if let Some(name) = new {
        say(rt, b" named");
        say_name(rt, name);
    }
}

// A right, a kind, a mark and a mask of holders, each as a number.
fn say_terms(rt: &HostRuntime, terms: Terms) {
    say_byte(rt, terms.right);
    say_byte(rt, terms.kind);
    say_byte(rt, terms.fresh);
    say(rt, b" ");
    say_decimal(rt, terms.holders);
}

// Who acts, where it is not domain 0.
pub fn say_actor(rt: &HostRuntime, actor: u32) {
    if actor != 0 {
        say(rt, b" as");
        say_number(rt, actor);
    }
}

// An event: its word, its new name where that is written, and its values.
pub fn say_event(rt: &HostRuntime, event: Event) {
    match event {
        Event::Create(new, span, terms) => {
            say(rt, b" create");
            say_new(rt, new);
            say_span(rt, span);
            say_terms(rt, terms);
        }
        Event::Borrow(new, name, span, terms) => {
            say(rt, b" borrow");
            say_new(rt, new);
            say_name(rt, name);
            say_span(rt, span);
            say_terms(rt, terms);
        }
        Event::Read(name, span) => {
            say(rt, b" read");
            say_name(rt, name);
            say_span(rt, span);
        }
        Event::Write(name, span) => {
            say(rt, b" write");
            say_name(rt, name);
            say_span(rt, span);
        }
        Event::Drop(name) => {
            say(rt, b" drop");
            say_name(rt, name);
        }
    }
}
