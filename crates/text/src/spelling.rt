// The two spellings of event lines.
ghost use Rattle.std.specs.Prelude.{◌≡◌};
ghost use Rattle.text.specs.Event.{writes_name};

use model::Name;

// `Plain` is the spelling of document 01. `Named` is the one behind the line `(trace 2)` of card 1: a create or borrow writes the
// new name after its word, and the other kinds are spelled alike in both.
#[derive(Clone, Copy)]
pub enum Spelling {
    Plain,
    Named,
}

// Internal. Whether a new name is written exactly where the spelling writes one.
pub(crate) fn writes_name(spelling: Spelling, new: Option<Name>) -> bool
    ensures { result ≡ writes_name spelling new }
{
    match spelling {
        Spelling::Plain => new.is_none(),
        Spelling::Named => new.is_some(),
    }
}
