// Lines in document 01's form, read: the lines that it has by itself, without the words that cards have added.
ghost use Rattle.std.specs.Prelude.{◌≡◌};
ghost use Rattle.text.specs.Form.{in_form, gives_plainly, read_form, read_form_answer};

use crate::spelling::Spelling;
use crate::{read, spelling};
use model::{Event, Name, Refusal, Terms};
use table::ordered::is_right;

// Whether a create or borrow gives what document 01 has it give: no name, a right, no kind and no mark, to domain 0 alone.
fn gives_plainly(new: Option<Name>, terms: Terms) -> bool
    ensures { result ≡ gives_plainly new terms }
{
    spelling::writes_name(Spelling::Plain, new)
        && is_right(terms.right as u32)
        && terms.kind == 0
        && terms.fresh == 0
        && terms.holders == 1
}

// Whether an event has document 01's form.
fn in_form(event: Event) -> bool
    ensures { result ≡ in_form event }
{
    match event {
        Event::Create(new, _, terms) => gives_plainly(new, terms),
        Event::Borrow(new, _, _, terms) => gives_plainly(new, terms),
        Event::Read(_, _) | Event::Write(_, _) | Event::Drop(_) => true,
    }
}

// Reads a line by itself, in document 01's form: the event whose line it is, by domain 0, its newline included, or refusal 2.
pub fn read_form(line: &[u8]) -> Result<Event, Refusal>
    ensures { read_form_answer result ≡ read_form line.now }
{
    let (actor, event) = read::read_event(Spelling::Plain, line)?;
    if (actor == 0) & in_form(event) {
        Ok(event)
    } else {
        Err(Refusal::Misspelt)
    }
}
