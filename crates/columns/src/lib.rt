// Card 12, "traces by column": events with a spelling in document 01's form, put into columns of like values, and back.
//
// An event stands in a lent list as the twelve words of the C interface. Kinds and rights are bytes, all other entries are words.
// C lends them so (`kz_event`, `kz_columns`), of any value, and each gets an answer: so kinds and rights are numbers in all of the crate.
#![tactic(auto)]

ghost use Rattle.std.specs.Prelude.{◌≡◌};
ghost use Rattle.columns.specs.Columns.{columns};
ghost use Rattle.columns.specs.Lent.{moved_of, moved_to, stored_to, moved_from, stored_from, packed_moved, counts_after};

use from::from_columns;
use kelzoud_events::answers::{pack, pack_refusal};
use kelzoud_events::events::Words;
use model::Refusal;
use to::to_columns;

mod counts;
pub mod from;
pub mod to;
mod words;

// How many entries were used in each list.
#[derive(Clone, Copy)]
pub struct Used {
    pub events: u32,
    pub kinds: u32,
    pub names: u32,
    pub starts: u32,
    pub lengths: u32,
    pub rights: u32,
}

// The answer as one number; the counts go into the words that are lent for them.
fn answer_moved(moved: Result<Used, Refusal>, used: &mut [u32; 6]) -> u64
    ensures { (result ≡ packed_moved (moved_of moved)) × (used.new ≡ counts_after (moved_of moved) used.old) }
{
    match moved {
        Ok(u) => {
            *used = [u.events, u.kinds, u.names, u.starts, u.lengths, u.rights];
            pack(0, u.events as u64)
        }
        Err(refusal) => pack_refusal(refusal, 0),
    }
}

// Events into the columns that are lent: the number of events, or refusal 2 or 11. The counts go into the words that are lent for them.
pub fn kz_abi_to_columns(
    events: &[Words],
    kinds: &mut [u8],
    names: &mut [u32],
    starts: &mut [u32],
    lengths: &mut [u32],
    rights: &mut [u8],
    used: &mut [u32; 6],
) -> u64
    ensures { (columns kinds.new names.new starts.new lengths.new rights.new ≡ stored_to events.now (columns kinds.old names.old starts.old lengths.old rights.old))
        × (used.new ≡ counts_after (moved_to events.now (columns kinds.old names.old starts.old lengths.old rights.old)) used.old)
        × (result ≡ packed_moved (moved_to events.now (columns kinds.old names.old starts.old lengths.old rights.old))) }
{
    let moved = to_columns(events, kinds, names, starts, lengths, rights);
    answer_moved(moved, used)
}

// Columns into the list that is lent for events, in the same way.
pub fn kz_abi_from_columns(
    kinds: &[u8],
    names: &[u32],
    starts: &[u32],
    lengths: &[u32],
    rights: &[u8],
    events: &mut [Words],
    used: &mut [u32; 6],
) -> u64
    ensures { (events.new ≡ stored_from (columns kinds.now names.now starts.now lengths.now rights.now) events.old)
        × (used.new ≡ counts_after (moved_from (columns kinds.now names.now starts.now lengths.now rights.now) events.old) used.old)
        × (result ≡ packed_moved (moved_from (columns kinds.now names.now starts.now lengths.now rights.now) events.old)) }
{
    let moved = from_columns(kinds, names, starts, lengths, rights, events);
    answer_moved(moved, used)
}
