// The clients' names: a list of those that were given, in which all are that live, and beside each a key that says which client calls it what.
ghost use Rattle.std.specs.Prelude.{◌≡◌, cond, ◌&&◌, suc, ◌+◌, ◌<◌, ◌≤◌, ltb, eqb, length, get_or};
ghost use Rattle.table.specs.Words.{rows_in};
ghost use Rattle.table.specs.Rows.{name_at, Rise};
ghost use Rattle.sizes.specs.Names.{name_in, renamed, is_given, key_of, Listed, KeyFound, Beside, Meant, Kept, names_with, keys_with, counts_with, used_with};

use model::{Event, Name};
use table::Row;
use table::ordered::wide;
use table::words::row_at;

// Twice as many as can live, so that those that have ended are looked for once in a thousand names.
pub type Entries = [u32; 2048];

// Where a key may stand in the list, by its low bits.
pub type Note = [u16; 4096];

// The name that an event uses; 0 for a create, which uses none.
// 0 is no name that a client was given, and not an `Option`: the engine is asked with it where `meant` and `beside` know no name, and refuses it 4
// (`name_in`, `Beside` and `Meant`, sizes/specs/Names).
pub fn name_in(event: Event) -> u32
    ensures { result ≡ name_in event }
{
    match event {
        Event::Create(..) => 0,
        Event::Borrow(_, u, ..) | Event::Read(u, _) | Event::Write(u, _) | Event::Drop(u) => u.0,
    }
}

// The same event with another name.
pub fn rename(event: Event, name: u32) -> Event
    ensures { result ≡ renamed name event }
{
    match event {
        Event::Create(..) => event,
        Event::Borrow(w, _, s, r) => Event::Borrow(w, Name(name), s, r),
        Event::Read(_, s) => Event::Read(Name(name), s),
        Event::Write(_, s) => Event::Write(Name(name), s),
        Event::Drop(_) => Event::Drop(Name(name)),
    }
}

// Whether a client that was given so many names was given one that it calls so.
pub fn is_given(count: u32, local: u32) -> bool
    ensures { result ≡ is_given count local }
{
    local != 0 && local <= count
}

fn key_of(client: u32, local: u32) -> u32
    requires { (client ≤ 8) × (local < 1048576) }
    ensures { result ≡ key_of client local }
{
    client * 1048576 + local
}

// The clients' keys begin 512 apart: as long as each has no more names in use, none shares its slot.
fn slot_of(key: u32) -> usize
    ensures { result < 4096 }
{
    let wide = key as usize;
    (wide / 1048576 * 512 + wide % 1048576) % 4096
}

// Where a key stands in the list; `used` if nowhere. The newest names are looked at first.
fn search(keys: &Entries, used: usize, key: u32) -> usize
    requires { used ≤ 2048 }
    ensures { KeyFound used keys.now key result }
{
    for i in (0..used).rev() {
        if keys[i] == key {
            return i;
        }
    }
    used
}

// The same, where the note is tried first, and renewed where it was wrong.
fn find_key(keys: &Entries, used: usize, note: &mut Note, key: u32) -> usize
    requires { used ≤ 2048 }
    ensures { KeyFound used keys.now key result }
{
    let slot = slot_of(key);
    let guess = wide(note[slot]);
    if guess < used && keys[guess] == key {
        return guess;
    }
    let found = search(keys, used, key);
    note[slot] = found as u16;
    found
}

// The name beside a key; 0 where the list has no such key.
fn beside(names: &Entries, keys: &Entries, used: usize, note: &mut Note, key: u32) -> u32
    requires { used ≤ 2048 }
    ensures { Beside used names.now keys.now key result }
{
    let at = find_key(keys, used, note, key);
    if at < used { names[at] } else { 0 }
}

// The name that a client means which was given so many; 0 where it was given no such name, or one that is no longer in the list.
pub fn meant(
    names: &Entries,
    keys: &Entries,
    used: usize,
    note: &mut Note,
    client: u32,
    count: u32,
    local: u32,
) -> u32
    requires { (used ≤ 2048) × (client ≤ 8) × (count ≤ 1000000) }
    ensures { Meant used names.now keys.now client count local result }
{
    if is_given(count, local) {
        beside(names, keys, used, note, key_of(client, local))
    } else {
        0
    }
}

// The place behind j where row j has this name, and else j.
fn past(table: &[Row], live: usize, j: usize, name: u32) -> usize
    requires { live ≤ length table.now }
    ensures { result ≡ cond (ltb j live && eqb (name_at (rows_in table.now) j) name) (j + 1) j }
{
    if j < live && row_at(table, j).name.0 == name {
        j + 1
    } else {
        j
    }
}

// Only the names that live stay in the list, in their order; the answer is how many they are. Rows and names both rise, so one pass finds
// them: each entry is put at the next place, and only one that lives is not written over.
fn keep_living(
    table: &[Row],
    live: usize,
    names: &mut Entries,
    keys: &mut Entries,
    used: usize,
) -> usize
    requires { (live ≤ 1024) × Rise (rows_in table.now) live × Listed (rows_in table.now) live names.old used × (length keys.old ≡ 2048) }
    ensures { Kept (rows_in table.now) live names.old keys.old used names.new keys.new result × (result ≤ live) }
{
    let mut j: usize = 0;
    for i in 0..used {
        let name = names[i];
        names[j] = name;
        keys[j] = keys[i];
        j = past(table, live, j, name);
    }
    j
}

// Room for one name more: where the list is full, only what lives stays in it.
pub fn make_room(
    table: &[Row],
    live: usize,
    names: &mut Entries,
    keys: &mut Entries,
    used: usize,
) -> usize
    requires { (live ≤ 1024) × Rise (rows_in table.now) live × Listed (rows_in table.now) live names.old used × (length keys.old ≡ 2048) }
    ensures { Kept (rows_in table.now) live names.old keys.old used names.new keys.new result × (result < 2048) }
{
    if used < 2048 {
        return used;
    }
    keep_living(table, live, names, keys, used)
}

// A new name is the client's next, and is put behind the others; 0 is none. The answer is how many names are in the list then.
pub fn give(
    names: &mut Entries,
    keys: &mut Entries,
    used: usize,
    note: &mut Note,
    counts: &mut [u32; 8],
    client: usize,
    new: u32,
) -> usize
    requires { (used < 2048) × (client < 8) × (get_or counts.old client 0 ≤ 1000000) }
    ensures { (names.new ≡ names_with new names.old used)
        × (keys.new ≡ keys_with new keys.old used (suc client) (get_or counts.old client 0))
        × (counts.new ≡ counts_with new counts.old client)
        × (result ≡ used_with new used) }
{
    if new == 0 {
        return used;
    }
    let count = counts[client] + 1;
    counts[client] = count;
    let key = key_of(client as u32 + 1, count);
    names[used] = new;
    keys[used] = key;
    note[slot_of(key)] = used as u16;
    used + 1
}
