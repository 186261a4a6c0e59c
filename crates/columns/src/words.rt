// The words of an event with a spelling in document 01's form.
// Kinds and rights stay numbers, since C lends words of any value (`kz_event`), of which `is_event` (columns/specs/Form) says which are an event's.
ghost use Rattle.std.specs.Prelude.{◌≡◌};
ghost use Rattle.columns.specs.Form.{is_event};
ghost use Rattle.columns.specs.Walk.{is_five, rest_plain, right_plain, holders_plain, name_fits, span_fits};

use kelzoud_events::events::Words;
use table::ordered::is_right;

// Nothing here branches by the kind: in a trace no processor can guess the next one.

// Whether a number is one of the five kinds.
pub fn is_five(kind: u32) -> bool
    ensures { result ≡ is_five kind }
{
    (1 <= kind) & (kind <= 5)
}

// The words that no event of document 01's form has: a written name, a kind of capability, a mark, a domain, and holders above the first 32.
fn rest_plain(w: Words) -> bool
    ensures { result ≡ rest_plain w }
{
    (w[5] == 0) & ((w[6] == 0) & ((w[7] == 0) & ((w[8] == 0) & ((w[9] == 0) & (w[11] == 0)))))
}

// The right of an event that makes a capability, and none of any other; and for whom it makes it.
fn right_plain(w: Words) -> bool
    ensures { result ≡ right_plain w }
{
    let makes = w[0] < 3;
    (makes & is_right(w[4])) | (!makes & (w[4] == 0))
}

fn holders_plain(w: Words) -> bool
    ensures { result ≡ holders_plain w }
{
    let makes = w[0] < 3;
    (makes & (w[10] == 1)) | (!makes & (w[10] == 0))
}

// A create has no name, and a drop no span.
fn name_fits(w: Words) -> bool
    ensures { result ≡ name_fits w }
{
    (1 < w[0]) | (w[1] == 0)
}

fn span_fits(w: Words) -> bool
    ensures { result ≡ span_fits w }
{
    (w[0] < 5) | ((w[2] == 0) & (w[3] == 0))
}

// Whether words stand for an event of document 01's form.
pub fn is_event(w: Words) -> bool
    ensures { result ≡ is_event w }
{
    is_five(w[0])
        & (name_fits(w) & (span_fits(w) & (right_plain(w) & (holders_plain(w) & rest_plain(w)))))
}
