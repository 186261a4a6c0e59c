// How many entries events of each kind have in each column.
ghost use Rattle.std.specs.Prelude.{◌≡◌, ◌<◌, ◌≤◌};
ghost use Rattle.columns.specs.Walk.{with_kind, used_by};

use crate::Used;

// The names, the spans and the rights: entries of a column, or the place of the next one.
#[derive(Clone, Copy)]
pub struct Counts {
    pub names: usize,
    pub spans: usize,
    pub rights: usize,
}

// One event more, of a kind from 1 to 5. Internal: the caller keeps the counts below 4,096.
// The kind stays the number that C lends (`kz_event`, `kz_columns`).
pub fn with_kind(kind: u32, counts: Counts) -> Counts
    requires { (counts.names < 4096) × (counts.spans < 4096) × (counts.rights < 4096) }
    ensures { result ≡ with_kind kind counts }
{
    Counts {
        names: counts.names + (1 < kind) as usize,
        spans: counts.spans + (kind < 5) as usize,
        rights: counts.rights + (kind < 3) as usize,
    }
}

// What so many events use. Internal: they are at most 4,096, and so are the counts.
pub fn used_by(events: usize, counts: Counts) -> Used
    requires { (events ≤ 4096) × (counts.names ≤ 4096) × (counts.spans ≤ 4096) × (counts.rights ≤ 4096) }
    ensures { result ≡ used_by events counts }
{
    Used {
        events: events as u32,
        kinds: events as u32,
        names: counts.names as u32,
        starts: counts.spans as u32,
        lengths: counts.spans as u32,
        rights: counts.rights as u32,
    }
}
