// One line of one client.
ghost use Rattle.std.specs.Prelude.{◌≡◌, true, false, cond, [], suc, ◌<◌, ◌≤◌};
ghost use Rattle.model.specs.Answers.{number, verdict_of};
ghost use Rattle.table.specs.Known.{Fit};
ghost use Rattle.text.specs.Result.{value};
ghost use Rattle.text.specs.Form.{read_form};
ghost use Rattle.sizes.specs.Names.{has_ended, ended_for};
ghost use Rattle.sizes.specs.Peak.{needs};
ghost use Rattle.sizes.specs.Taken.{memory, Sound, SoundAt, Asks, Takes};

use crate::names::{Entries, Note, give, is_given, make_room, meant, name_in, rename};
use model::{Event, Name, Refusal, Tally, Work};
use rules::steps::take_work;
use rules::{Outcome, Progress};
use table::Row;
use table::sheets::card6;
use text::form::read_form;

// What is counted, how many rows live, how many names are in the list, and the most rows that a line has needed.
#[derive(Clone, Copy)]
pub struct Standing {
    pub tally: Tally,
    pub live: usize,
    pub used: usize,
    pub most: usize,
}

// A line's answer, and what stands after it.
#[derive(Clone, Copy)]
pub struct Turned {
    pub answer: Result<Name, Refusal>,
    pub standing: Standing,
}

// Whether a name was given that is not in the list, where the name that is meant is known.
fn has_ended(name: u32, count: u32, local: u32) -> bool
    ensures { result ≡ has_ended name count local }
{
    name == 0 && is_given(count, local)
}

// A refusal of a name that is called 0, for one that has ended.
fn refusal_for(ended: bool, refusal: Refusal) -> Refusal
    ensures { number result ≡ cond ended (ended_for (number refusal)) (number refusal) }
{
    match refusal {
        Refusal::Unissued if ended => Refusal::Ended,
        _ => refusal,
    }
}

// An answer to the name 0, for one that has ended.
fn answer_for(ended: bool, answer: Result<Name, Refusal>) -> Result<Name, Refusal>
    ensures { (ended ≡ false → verdict_of result ≡ verdict_of answer) × (ended ≡ true → (verdict_of result).refusal ≡ ended_for (verdict_of answer).refusal) }
{
    match answer {
        Ok(_) => answer,
        Err(x) => Err(refusal_for(ended, x)),
    }
}

// An event of a client, which was given so many names, on the table that all share.
fn ask(
    table: &mut [Row],
    live: usize,
    places: &mut [u16; 1024],
    bits: &mut [u8],
    tally: Tally,
    names: &Entries,
    keys: &Entries,
    used: usize,
    note: &mut Note,
    counts: &[u32; 8],
    client: usize,
    event: Event,
) -> Progress
    requires { Sound (memory table.old bits.old places.old names.now keys.now counts.now) live used tally × (client < 8) }
    ensures { Asks (memory table.old bits.old places.old names.now keys.now counts.now) live used tally (suc client) event table.new bits.new result.outcome
        × Fit table.new bits.new result.live result.outcome.tally.issued [] places.new }
{
    let count = counts[client];
    let local = name_in(event);
    let name = meant(names, keys, used, note, client as u32 + 1, count, local);
    let sheet = card6();
    let none: [u32; 0] = [];
    let work = Work::Single(0, rename(event, name));
    let done = take_work(table, live, places, bits, tally, &sheet, &none, work, &none);
    let outcome = done.outcome;
    let after = outcome.tally;
    let said = outcome.answer;
    let answer = answer_for(has_ended(name, count, local), said);
    let told = Outcome {
        tally: after,
        answer,
    };
    Progress {
        outcome: told,
        live: done.live,
    }
}

// How many rows an event needs where so many live: a create or borrow one more, and the others none.
fn need_of(event: Event, live: usize) -> usize
    requires { live ≤ 1024 }
    ensures { result ≡ needs live event }
{
    match event {
        Event::Create(..) | Event::Borrow(..) => live + 1,
        Event::Read(..) | Event::Write(..) | Event::Drop(_) => 0,
    }
}

// The new name that an answer carries; 0 where there is none.
fn new_name(answer: Result<Name, Refusal>) -> u32
    ensures { result ≡ (verdict_of answer).name }
{
    match answer {
        Ok(x) => x.0,
        Err(_) => 0,
    }
}

// An event of a client: it is asked for, and a new name is the client's.
fn take_event(
    table: &mut [Row],
    places: &mut [u16; 1024],
    bits: &mut [u8],
    names: &mut Entries,
    keys: &mut Entries,
    note: &mut Note,
    counts: &mut [u32; 8],
    from: Standing,
    client: usize,
    event: Event,
) -> Turned
    requires { SoundAt (memory table.old bits.old places.old names.old keys.old counts.old) from × (client < 8) }
    ensures { Takes (memory table.old bits.old places.old names.old keys.old counts.old) from (suc client) (value event) (memory table.new bits.new places.new names.new keys.new counts.new) result }
{
    let live = from.live;
    let tally = from.tally;
    let used = make_room(table, live, names, keys, from.used);
    let most = from.most.max(need_of(event, live));
    let asked = ask(
        table, live, places, bits, tally, names, keys, used, note, counts, client, event,
    );
    let outcome = asked.outcome;
    let answer = outcome.answer;
    let after = outcome.tally;
    let more = give(names, keys, used, note, counts, client, new_name(answer));
    let standing = Standing {
        tally: after,
        live: asked.live,
        used: more,
        most,
    };
    Turned { answer, standing }
}

// A line of a client, in document 01's form.
pub fn take_line(
    table: &mut [Row],
    places: &mut [u16; 1024],
    bits: &mut [u8],
    names: &mut Entries,
    keys: &mut Entries,
    note: &mut Note,
    counts: &mut [u32; 8],
    from: Standing,
    client: usize,
    line: &[u8],
) -> Turned
    requires { SoundAt (memory table.old bits.old places.old names.old keys.old counts.old) from × (client < 8) }
    ensures { Takes (memory table.old bits.old places.old names.old keys.old counts.old) from (suc client) (read_form line.now) (memory table.new bits.new places.new names.new keys.new counts.new) result }
{
    let read = read_form(line);
    match read {
        Ok(event) => {
            take_event(
                table, places, bits, names, keys, note, counts, from, client, event,
            )
        }
        Err(why) => Turned {
            answer: Err(why),
            standing: from,
        },
    }
}
