// Marks and backs, on one line each: read and written as event lines are, by a guess of the slot that must write back to the same bytes.
ghost use Rattle.std.specs.Prelude.{◌≡◌, length};
ghost use Rattle.text.specs.Write.{outcome};
ghost use Rattle.text.specs.State.{slot_spelled, slot_of, is_slot_spelling, read_state, state_answer, write_slot, write_mark, write_back};

use crate::{lines, numbers, read, write};
use model::{Asked, Refusal};
use table::masks::is_domain;

// Whether a mark or a back has a line: who asks is a domain, and the slot is one of eight.
fn is_spelled(actor: u32, slot: u32) -> bool
    ensures { result ≡ slot_spelled actor slot }
{
    is_domain(actor) && slot <= 7
}

// Writes the line of a slot by a domain, with the word of a mark or of a back.
fn write_slot(word: &[u8], actor: u32, slot: u32, out: &mut [u8]) -> Result<usize, Refusal>
    requires { length word.now ≡ 5 }
    ensures { outcome result out.new ≡ write_slot word.now actor slot out.old }
{
    let numbers = [slot];
    write::write_line(is_spelled(actor, slot), actor, word, &numbers, out)
}

// Writes the line of a mark by a domain at the buffer's first bytes and answers its length; refusal 2 for a domain above 63 or a slot above 7, and 11
// where the line is longer than the buffer.
pub fn write_mark(actor: u32, slot: u32, out: &mut [u8]) -> Result<usize, Refusal>
    ensures { outcome result out.new ≡ write_mark actor slot out.old }
{
    write_slot(b"(mark", actor, slot, out)
}

// Writes the line of a back, in the same way.
pub fn write_back(actor: u32, slot: u32, out: &mut [u8]) -> Result<usize, Refusal>
    ensures { outcome result out.new ≡ write_back actor slot out.old }
{
    write_slot(b"(back", actor, slot, out)
}

// The one slot that a form can name. Nothing is checked here.
fn slot_of(form: &[u8]) -> u32
    ensures { result ≡ slot_of form.now }
{
    numbers::number(lines::after_space(form))
}

// Whether a line is the spelling of a slot by a domain, with such a word; the longest has 17 bytes.
fn is_spelling(word: &[u8], line: &[u8], actor: u32, slot: u32) -> bool
    requires { length word.now ≡ 5 }
    ensures { result ≡ is_slot_spelling word.now line.now actor slot }
{
    let mut buffer = [0u8; 17];
    let written = write_slot(word, actor, slot, &mut buffer);
    let Ok(length) = written else {
        return false;
    };
    line == &buffer[..length]
}

// Reads a line by itself: the mark or the back whose spelling it is, its newline included, or refusal 2.
pub fn read_state(line: &[u8]) -> Result<Asked, Refusal>
    ensures { state_answer result ≡ read_state line.now }
{
    let actor = read::actor_of(line);
    let slot = slot_of(read::form_of(line));
    if is_spelling(b"(mark", line, actor, slot) {
        return Ok(Asked::Mark(actor, slot));
    }
    if is_spelling(b"(back", line, actor, slot) {
        return Ok(Asked::Back(actor, slot));
    }
    Err(Refusal::Misspelt)
}
