// Events into columns.
// Kinds and rights stay numbers here (`put_events`, `to_columns`), as C lends and takes them (`kz_event`, `kz_columns`).
ghost use Rattle.std.specs.Prelude.{◌≡◌, true, cond, map, ◌≤◌, ltb, length, set};
ghost use Rattle.model.specs.Lists.{all};
ghost use Rattle.kelzoud_events.specs.Interface.{event_in};
ghost use Rattle.columns.specs.Form.{is_event};
ghost use Rattle.columns.specs.Columns.{columns, columns_of};
ghost use Rattle.columns.specs.Lent.{room, over_columns, moved_of, moved_to, stored_to};
ghost use Rattle.columns.specs.Walk.{counts_of, counted_of, kinds_in, event_counts, room_for};

use crate::Used;
use crate::counts::{Counts, used_by, with_kind};
use crate::words::is_event;
use kelzoud_events::events::Words;
use model::Refusal;

// How many entries a list of events gets, if each is of document 01's form.
fn count_events(events: &[Words]) -> Option<Counts>
    requires { length events.now ≤ 4096 }
    ensures { counted_of result ≡ event_counts events.now }
{
    let mut counts = Counts {
        names: 0,
        spans: 0,
        rights: 0,
    };
    for w in events {
        if !is_event(*w) {
            return None;
        }
        counts = with_kind(w[0], counts);
    }
    Some(counts)
}

// Whether lists of these lengths have room for the entries of so many events.
fn has_room(
    events: usize,
    counts: Counts,
    kinds: usize,
    names: usize,
    starts: usize,
    lengths: usize,
    rights: usize,
) -> bool
    ensures { result ≡ room_for events counts kinds names starts lengths rights }
{
    (events <= kinds)
        & ((counts.names <= names)
            & ((counts.spans <= starts) & ((counts.spans <= lengths) & (counts.rights <= rights))))
}

// A value at a place below those that are used. What is no entry may be put too: the next entry is put over it, and behind the last one there is
// no such place.
fn put_below<T: Copy>(column: &mut [T], used: usize, at: usize, x: T)
    requires { used ≤ length column.old }
    ensures { column.new ≡ cond (ltb at used) (set column.old at x) column.old }
{
    if at < used {
        column[at] = x;
    }
}

// Each event's entries. Internal: all events are of document 01's form, they are counted, and there is room.
fn put_events(
    events: &[Words],
    used: Counts,
    kinds: &mut [u8],
    names: &mut [u32],
    starts: &mut [u32],
    lengths: &mut [u32],
    rights: &mut [u8],
)
    requires { (length events.now ≤ 4096) × (all is_event events.now ≡ true) × (used ≡ counts_of (kinds_in events.now))
        × (room (columns_of (map event_in events.now)) (columns kinds.old names.old starts.old lengths.old rights.old) ≡ true) }
    ensures { columns kinds.new names.new starts.new lengths.new rights.new ≡ over_columns (columns_of (map event_in events.now)) (columns kinds.old names.old starts.old lengths.old rights.old) }
{
    let mut at = Counts {
        names: 0,
        spans: 0,
        rights: 0,
    };
    for (i, w) in events.iter().enumerate() {
        let kind = w[0];
        kinds[i] = kind as u8;
        put_below(names, used.names, at.names, w[1]);
        put_below(starts, used.spans, at.spans, w[2]);
        put_below(lengths, used.spans, at.spans, w[3]);
        put_below(rights, used.rights, at.rights, w[4] as u8);
        at = with_kind(kind, at);
    }
}

// Puts events, in their order, into columns.
pub fn to_columns(
    events: &[Words],
    kinds: &mut [u8],
    names: &mut [u32],
    starts: &mut [u32],
    lengths: &mut [u32],
    rights: &mut [u8],
) -> Result<Used, Refusal>
    ensures { (moved_of result ≡ moved_to events.now (columns kinds.old names.old starts.old lengths.old rights.old))
        × (columns kinds.new names.new starts.new lengths.new rights.new ≡ stored_to events.now (columns kinds.old names.old starts.old lengths.old rights.old)) }
{
    if events.len() > 4096 {
        return Err(Refusal::Misspelt);
    }
    let counted = count_events(events);
    let Some(counts) = counted else {
        return Err(Refusal::Misspelt);
    };
    if !has_room(
        events.len(),
        counts,
        kinds.len(),
        names.len(),
        starts.len(),
        lengths.len(),
        rights.len(),
    ) {
        return Err(Refusal::BufferTooShort);
    }
    put_events(events, counts, kinds, names, starts, lengths, rights);
    Ok(used_by(events.len(), counts))
}
