// The calls of `columns` as C calls them: each is the library's of its name, and promises the same.
#![tactic(auto)]

ghost use Rattle.std.specs.Prelude.{◌≡◌};
ghost use Rattle.columns.specs.Columns.{columns};
ghost use Rattle.columns.specs.Lent.{moved_to, stored_to, moved_from, stored_from, packed_moved, counts_after};

use kelzoud_events::events::Words;

// Events into the columns that are lent: the number of events, or refusal 2 or 11. The counts go into the words that are lent for them.
#[unsafe(no_mangle)]
pub extern "C" fn kz_abi_to_columns(
    events: &[Words],
    kinds: &mut [u8],
    names: &mut [u32],
    starts: &mut [u32],
    lengths: &mut [u32],
    rights: &mut [u8],
    used: &mut [u32; 6],
) -> u64
    ensures { (columns kinds.new names.new starts.new lengths.new rights.new ≡ stored_to events.now (columns kinds.old names.old starts.old lengths.old rights.old))
        × (used.new ≡ counts_after (moved_to events.now (columns kinds.old names.old starts.old lengths.old rights.old)) used.old)
        × (result ≡ packed_moved (moved_to events.now (columns kinds.old names.old starts.old lengths.old rights.old))) }
{
    columns::kz_abi_to_columns(events, kinds, names, starts, lengths, rights, used)
}

// Columns into the list that is lent for events, in the same way.
#[unsafe(no_mangle)]
pub extern "C" fn kz_abi_from_columns(
    kinds: &[u8],
    names: &[u32],
    starts: &[u32],
    lengths: &[u32],
    rights: &[u8],
    events: &mut [Words],
    used: &mut [u32; 6],
) -> u64
    ensures { (events.new ≡ stored_from (columns kinds.now names.now starts.now lengths.now rights.now) events.old)
        × (used.new ≡ counts_after (moved_from (columns kinds.now names.now starts.now lengths.now rights.now) events.old) used.old)
        × (result ≡ packed_moved (moved_from (columns kinds.now names.now starts.now lengths.now rights.now) events.old)) }
{
    columns::kz_abi_from_columns(kinds, names, starts, lengths, rights, events, used)
}
