// Columns into events.
// Kinds and rights stay numbers here (`count_kinds`, `words_from`, `take_kinds`, `from_columns`): C lends columns of any bytes (`kz_columns`), and
// each gets an answer.
ghost use Rattle.std.specs.Prelude.{◌≡◌, true, map, ◌<◌, ◌≤◌, length, get_or};
ghost use Rattle.model.specs.Lists.{all};
ghost use Rattle.model.specs.Table.{is_right};
ghost use Rattle.columns.specs.Form.{event_words};
ghost use Rattle.columns.specs.Columns.{columns, event_from, events_from};
ghost use Rattle.columns.specs.Lent.{over, moved_of, moved_from, stored_from};
ghost use Rattle.columns.specs.Walk.{is_five, counted_of, kind_counts, lengths_fit, kept};

use crate::Used;
use crate::counts::{Counts, used_by, with_kind};
use crate::words::is_five;
use kelzoud_events::events::Words;
use model::Refusal;
use table::ordered::is_right;

// How many entries a column of kinds asks for, if each is one of the five. All are looked at, none ends the loop, and the counts are short, so that
// many kinds are counted at a time.
fn count_kinds(kinds: &[u8]) -> Option<Counts>
    requires { length kinds.now ≤ 4096 }
    ensures { counted_of result ≡ kind_counts kinds.now }
{
    let mut names: u16 = 0;
    let mut spans: u16 = 0;
    let mut rights: u16 = 0;
    let mut five = true;
    for byte in kinds {
        let kind = *byte as u32;
        five &= is_five(kind);
        names += (1 < kind) as u16;
        spans += (kind < 5) as u16;
        rights += (kind < 3) as u16;
    }
    if five {
        Some(Counts {
            names: names as usize,
            spans: spans as usize,
            rights: rights as usize,
        })
    } else {
        None
    }
}

// Whether columns of these lengths have just the entries that are counted.
fn lengths_fit(counts: Counts, names: usize, starts: usize, lengths: usize, rights: usize) -> bool
    ensures { result ≡ lengths_fit counts names starts lengths rights }
{
    (names == counts.names)
        & ((starts == counts.spans) & ((lengths == counts.spans) & (rights == counts.rights)))
}

// Whether all of a column are rights. All are looked at here too.
fn are_rights(rights: &[u8]) -> bool
    ensures { result ≡ all is_right rights.now }
{
    let mut good = true;
    for right in rights {
        good &= is_right(*right as u32);
    }
    good
}

// What stands at a place of a column, and the value that is given for it behind the column's end.
fn entry_at<T: Copy>(column: &[T], at: usize, behind: T) -> T
    ensures { result ≡ get_or column.now at behind }
{
    column.get(at).copied().unwrap_or(behind)
}

// A value where there is one.
// A flag and a value, since a word that a kind lacks is 0 in C (`kz_event`; `kept`, columns/specs/Walk).
fn kept(has: bool, x: u32) -> u32
    ensures { result ≡ kept has x }
{
    if has { x } else { 0 }
}

// The words of the event of a kind with these values, of which it has those that its kind has.
fn words_from(kind: u32, name: u32, start: u32, length: u32, right: u32) -> Words
    requires { is_five kind ≡ true }
    ensures { result ≡ event_words (event_from kind name start length right) }
{
    [
        kind,
        kept(1 < kind, name),
        kept(kind < 5, start),
        kept(kind < 5, length),
        kept(kind < 3, right),
        0,
        0,
        0,
        0,
        0,
        kept(kind < 3, 1),
        0,
    ]
}

// Each kind's event, of which an entry is taken in any case and kept where it is this event's. Internal: the kinds are of the five, and there is
// room.
fn take_kinds(
    kinds: &[u8],
    names: &[u32],
    starts: &[u32],
    lengths: &[u32],
    rights: &[u8],
    events: &mut [Words],
)
    requires { (length kinds.now ≤ 4096) × (all is_five kinds.now ≡ true) × (length kinds.now ≤ length events.old) }
    ensures { events.new ≡ over (map event_words (events_from kinds.now names.now starts.now lengths.now rights.now)) events.old }
{
    let mut at = Counts {
        names: 0,
        spans: 0,
        rights: 0,
    };
    for (i, byte) in kinds.iter().enumerate() {
        let kind = *byte as u32;
        let name = entry_at(names, at.names, 0);
        let start = entry_at(starts, at.spans, 0);
        let length = entry_at(lengths, at.spans, 0);
        let right = entry_at(rights, at.rights, 0) as u32;
        events[i] = words_from(kind, name, start, length, right);
        at = with_kind(kind, at);
    }
}

// Puts the events of columns, in their order, into a list.
pub fn from_columns(
    kinds: &[u8],
    names: &[u32],
    starts: &[u32],
    lengths: &[u32],
    rights: &[u8],
    events: &mut [Words],
) -> Result<Used, Refusal>
    ensures { (moved_of result ≡ moved_from (columns kinds.now names.now starts.now lengths.now rights.now) events.old)
        × (events.new ≡ stored_from (columns kinds.now names.now starts.now lengths.now rights.now) events.old) }
{
    if kinds.len() > 4096 {
        return Err(Refusal::Misspelt);
    }
    let counted = count_kinds(kinds);
    let Some(counts) = counted else {
        return Err(Refusal::Misspelt);
    };
    if !lengths_fit(
        counts,
        names.len(),
        starts.len(),
        lengths.len(),
        rights.len(),
    ) {
        return Err(Refusal::Misspelt);
    }
    if !are_rights(rights) {
        return Err(Refusal::Misspelt);
    }
    if events.len() < kinds.len() {
        return Err(Refusal::BufferTooShort);
    }
    take_kinds(kinds, names, starts, lengths, rights, events);
    Ok(used_by(kinds.len(), counts))
}
