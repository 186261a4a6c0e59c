// Names that are dropped together, on one line: read and written as event lines are, by a guess that must write back to the same bytes.
ghost use Rattle.std.specs.Prelude.{◌≡◌, true, ◌≤◌, length};
ghost use Rattle.model.specs.Table.{is_domain};
ghost use Rattle.text.specs.Write.{outcome};
ghost use Rattle.text.specs.Group.{spell_group, is_group_spelling, read_group, group_answer, count_of, names_after, write_group, Guessed};

use crate::{classes, lines, numbers, pieces, read, write};
use model::Refusal;
use table::groups;
use table::masks::is_domain;

// Writes the line of names that are dropped together by a domain at the buffer's first bytes and answers its length; refusal 13 where the names are
// none, more than 64 or do not rise strictly, 2 for a domain above 63, and 11 where the line is longer than the buffer.
pub fn write_group(actor: u32, names: &[u32], out: &mut [u8]) -> Result<usize, Refusal>
    ensures { outcome result out.new ≡ write_group actor names.now out.old }
{
    let grouped = groups::is_group(names);
    if !grouped {
        return Err(Refusal::Misgrouped);
    }
    write::write_line(is_domain(actor), actor, b"(drop", names, out)
}

// The one list of up to 64 names whose form this can be, put first in an array, and how many they are. Nothing is checked here.
fn guess_names(form: &[u8], names: &mut [u32; 64]) -> usize
    requires { length names.old ≡ 64 }
    ensures { Guessed form.now names.new result }
{
    let mut at = lines::count_through(form, classes::SPACE);
    for count in 0..64 {
        if form.len() <= at {
            return count;
        }
        let word = numbers::read_word(&form[at..]);
        names[count] = word.value;
        at += word.end;
    }
    64
}

// Whether a line is the spelling of a group by a domain, the longest of which has 719 bytes.
fn is_spelling(line: &[u8], actor: u32, names: &[u32]) -> bool
    requires { is_domain actor ≡ true → length (spell_group actor names.now) ≤ 719 }
    ensures { result ≡ is_group_spelling line.now actor names.now }
{
    let mut buffer = [0u8; 719];
    let written = write_group(actor, names, &mut buffer);
    let Ok(length) = written else {
        return false;
    };
    line == &buffer[..length]
}

// Reads a line by itself: the domain and the group of names whose spelling it is, its newline included, or refusal 2. The names that are read are
// put first in the array; a refusal leaves it as it was.
pub fn read_group(line: &[u8], names: &mut [u32; 64]) -> Result<(u32, usize), Refusal>
    ensures { (group_answer result ≡ count_of (read_group line.now)) × (names.new ≡ names_after (read_group line.now) names.old) }
{
    let actor = read::actor_of(line);
    let mut found = [0u32; 64];
    let count = guess_names(read::form_of(line), &mut found);
    if !is_spelling(line, actor, &found[..count]) {
        return Err(Refusal::Misspelt);
    }
    pieces::copy_over(&mut names[..count], &found[..count]);
    Ok((actor, count))
}
