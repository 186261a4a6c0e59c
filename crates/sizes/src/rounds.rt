// The clients' lines in turn.
ghost use Rattle.std.specs.Prelude.{◌≡◌, suc, ◌<◌, ◌≤◌, length, get_or, Ok};
ghost use Rattle.model.specs.declared.Name.{Name};
ghost use Rattle.sizes.specs.Turns.{rounds, longest};
ghost use Rattle.sizes.specs.Clients.{Shared};
ghost use Rattle.sizes.specs.Report.{report_of};
ghost use Rattle.sizes.specs.Peak.{sized};
ghost use Rattle.sizes.specs.Taken.{memory, HoldsAt, SoundAt};
ghost use Rattle.sizes.specs.Rounds.{lines_from, Places, Advanced, AllAdvanced, Left, Runs, turn_of, round_of};

use crate::names::{Entries, Note};
use crate::turn::{Standing, Turned, take_line};
use crate::{RefusedAt, Sizing};
use model::{Name, Refusal};
use table::Row;
use text::lines::next_line;

// What came of a round: its answer, the client of a refused line, from 1, and what stands after it.
#[derive(Clone, Copy)]
pub struct Round {
    pub answer: Result<Name, Refusal>,
    pub client: usize,
    pub standing: Standing,
}

// The next line of a client, if it has one left. The place of the line behind it is kept in any case: after a refusal nothing is taken.
fn take_turn(
    text: &[u8],
    at: &mut [usize; 8],
    ends: &[usize; 8],
    table: &mut [Row],
    places: &mut [u16; 1024],
    bits: &mut [u8],
    names: &mut Entries,
    keys: &mut Entries,
    note: &mut Note,
    counts: &mut [u32; 8],
    from: Standing,
    client: usize,
) -> Turned
    requires { SoundAt (memory table.old bits.old places.old names.old keys.old counts.old) from × (client < 8)
        × (length at.old ≡ 8) × (get_or at.old client 0 ≤ get_or ends.now client 0) × (get_or ends.now client 0 ≤ length text.now) }
    ensures { Advanced text.now at.old ends.now at.new client
        × Runs (memory table.old bits.old places.old names.old keys.old counts.old) from (turn_of text.now at.old ends.now client) (memory table.new bits.new places.new names.new keys.new counts.new) result.answer (suc client) result.standing }
{
    let start = at[client];
    let end = ends[client];
    if start < end {
        let line = next_line(&text[start..end]);
        at[client] = start + line.len();
        return take_line(
            table, places, bits, names, keys, note, counts, from, client, line,
        );
    }
    Turned {
        answer: Ok(Name(0)),
        standing: from,
    }
}

// A round: the next line of each client, until one is refused.
fn one_round(
    text: &[u8],
    at: &mut [usize; 8],
    ends: &[usize; 8],
    clients: usize,
    table: &mut [Row],
    places: &mut [u16; 1024],
    bits: &mut [u8],
    names: &mut Entries,
    keys: &mut Entries,
    note: &mut Note,
    counts: &mut [u32; 8],
    from: Standing,
) -> Round
    requires { SoundAt (memory table.old bits.old places.old names.old keys.old counts.old) from × (clients ≤ 8) × Places text.now at.old ends.now clients }
    ensures { ((x : Name) → result.answer ≡ Ok x → AllAdvanced text.now at.old ends.now at.new clients)
        × Runs (memory table.old bits.old places.old names.old keys.old counts.old) from (round_of text.now at.old ends.now clients) (memory table.new bits.new places.new names.new keys.new counts.new) result.answer result.client result.standing }
{
    let mut now = from;
    for client in 0..clients {
        let turned = take_turn(
            text, at, ends, table, places, bits, names, keys, note, counts, now, client,
        );
        let answer = turned.answer;
        now = turned.standing;
        if let Err(refusal) = answer {
            return Round {
                answer: Err(refusal),
                client: client + 1,
                standing: now,
            };
        }
    }
    Round {
        answer: Ok(Name(0)),
        client: 0,
        standing: now,
    }
}

// Whether a client has a line left.
fn is_left(at: &[usize; 8], ends: &[usize; 8], clients: usize) -> bool
    requires { clients ≤ 8 }
    ensures { Left at.now ends.now clients result }
{
    (0..clients).any(|k| at[k] < ends[k])
}

// Rounds, until no client has a line left or one is refused: the most rows that were needed, or the first refusal.
pub fn run_clients(
    text: &[u8],
    at: &mut [usize; 8],
    ends: &[usize; 8],
    clients: usize,
    table: &mut [Row],
    places: &mut [u16; 1024],
    bits: &mut [u8],
    names: &mut Entries,
    keys: &mut Entries,
    note: &mut Note,
    counts: &mut [u32; 8],
    from: Standing,
) -> Sizing
    requires { SoundAt (memory table.old bits.old places.old names.old keys.old counts.old) from × (clients ≤ 8) × Places text.now at.old ends.now clients }
    ensures { (h : Shared) → HoldsAt h (memory table.old bits.old places.old names.old keys.old counts.old) from
        → sized h from.most (rounds (longest (lines_from text.now at.old ends.now 0 clients)) 1 (lines_from text.now at.old ends.now 0 clients)) ≡ report_of result }
{
    let mut now = from;
    let mut line: usize = 1;
    while is_left(at, ends, clients) {
        let round = one_round(
            text, at, ends, clients, table, places, bits, names, keys, note, counts, now,
        );
        let answer = round.answer;
        let client = round.client;
        now = round.standing;
        if let Err(refusal) = answer {
            return Err(RefusedAt {
                refusal,
                client,
                line,
            });
        }
        line += 1;
    }
    Ok(now.most)
}
