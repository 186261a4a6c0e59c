// The line of a request, written and read.
ghost use Rattle.std.specs.Prelude.{◌≡◌, []};
ghost use Rattle.model.specs.Requests.{Unlimited, work_of, request_of};
ghost use Rattle.text.specs.Group.{read_group};
ghost use Rattle.text.specs.State.{read_state};
ghost use Rattle.text.specs.Request.{state_of, or_state, read_request, spelling_with, spelling_of, write_request};
ghost use Rattle.text.specs.Write.{outcome};
ghost use Rattle.kelzoud_events.specs.Interface.{words_of};
ghost use Rattle.kelzoud.specs.Interface.{packed_read, spelling_in, event_after, group_after};

use kelzoud_events::answers::{pack, pack_refusal};
use kelzoud_events::events::{Words, back_words, group_words, mark_words, words_of};
use model::{Asked, Event, Name, Refusal, Work};
use text::group::{read_group, write_group};
use text::read::read_event;
use text::spelling::Spelling;
use text::states::{read_state, write_back, write_mark};
use text::write::write_event;

// The spelling that C asks for.
// It asks by a word of any value (`kz_read_event`), and so a number is taken here (`spelling_in`, kelzoud/specs/Interface).
pub fn spelling_in(named: u32) -> Spelling
    ensures { result ≡ spelling_in named }
{
    if named == 0 {
        Spelling::Plain
    } else {
        Spelling::Named
    }
}

fn spelling_with(new: Option<Name>) -> Spelling
    ensures { result ≡ spelling_with new }
{
    match new {
        None => Spelling::Plain,
        Some(_) => Spelling::Named,
    }
}

// The spelling that an event has.
fn spelling_of(event: Event) -> Spelling
    ensures { result ≡ spelling_of event }
{
    match event {
        Event::Create(new, _, _) => spelling_with(new),
        Event::Borrow(new, _, _, _) => spelling_with(new),
        Event::Read(_, _) => Spelling::Plain,
        Event::Write(_, _) => Spelling::Plain,
        Event::Drop(_) => Spelling::Plain,
    }
}

// Writes the line of work.
fn write_work(work: Work, names: &[u32], out: &mut [u8]) -> Result<usize, Refusal>
    ensures { outcome result out.new ≡ write_request (work_of Unlimited work names.now) out.old }
{
    match work {
        Work::Single(actor, event) => write_event(spelling_of(event), actor, event, out),
        Work::Group(actor) => write_group(actor, names, out),
    }
}

// Writes the line of what is asked.
pub fn write_request(asked: Asked, names: &[u32], out: &mut [u8]) -> Result<usize, Refusal>
    ensures { outcome result out.new ≡ write_request (request_of Unlimited asked names.now) out.old }
{
    match asked {
        Asked::Work(work) => write_work(work, names, out),
        Asked::Mark(actor, slot) => write_mark(actor, slot, out),
        Asked::Back(actor, slot) => write_back(actor, slot, out),
    }
}

// The words of work with no names.
fn work_words(work: Work) -> Words
    ensures { result ≡ words_of (work_of Unlimited work []) }
{
    match work {
        Work::Single(actor, event) => words_of(actor, event),
        Work::Group(actor) => group_words(actor, 0),
    }
}

// The words of what is asked with no names.
fn asked_words(asked: Asked) -> Words
    ensures { result ≡ words_of (request_of Unlimited asked []) }
{
    match asked {
        Asked::Work(work) => work_words(work),
        Asked::Mark(actor, slot) => mark_words(actor, slot),
        Asked::Back(actor, slot) => back_words(actor, slot),
    }
}

// Reads a line that is no event and drops no names together: a mark or a back.
fn read_slot(line: &[u8], event: &mut Words) -> u64
    ensures { (result ≡ packed_read (state_of Unlimited (read_state line.now)))
        × (event.new ≡ event_after (state_of Unlimited (read_state line.now)) event.old) }
{
    let found = read_state(line);
    match found {
        Ok(asked) => {
            *event = asked_words(asked);
            pack(0, 0)
        }
        Err(refusal) => pack_refusal(refusal, 0),
    }
}

// Reads a line that is no event: the names that it drops together, or a mark or a back.
fn read_names(line: &[u8], event: &mut Words, names: &mut [u32; 64]) -> u64
    ensures { (result ≡ packed_read (or_state Unlimited line.now (read_group line.now)))
        × (event.new ≡ event_after (or_state Unlimited line.now (read_group line.now)) event.old)
        × (names.new ≡ group_after (or_state Unlimited line.now (read_group line.now)) names.old) }
{
    let found = read_group(line, names);
    match found {
        Ok((actor, count)) => {
            *event = group_words(actor, count as u32);
            pack(0, 0)
        }
        Err(_) => read_slot(line, event),
    }
}

// Reads a line: the event that it spells, or the names that it drops together, or the mark or the back.
pub fn read_request(
    spelling: Spelling,
    line: &[u8],
    event: &mut Words,
    names: &mut [u32; 64],
) -> u64
    ensures { (result ≡ packed_read (read_request Unlimited spelling line.now))
        × (event.new ≡ event_after (read_request Unlimited spelling line.now) event.old)
        × (names.new ≡ group_after (read_request Unlimited spelling line.now) names.old) }
{
    let found = read_event(spelling, line);
    match found {
        Ok((actor, read)) => {
            *event = words_of(actor, read);
            pack(0, 0)
        }
        Err(_) => read_names(line, event, names),
    }
}
