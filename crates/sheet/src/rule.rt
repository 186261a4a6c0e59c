// A line of a sheet: how often it lists each word, up to twice, and its result.
ghost use Rattle.std.specs.Prelude.{◌≡◌, ◌+◌, ◌≤◌, ◌<◌, min, length, get_or, set};
ghost use Rattle.sheet.specs.Rule.{read_rule};
ghost use Rattle.sheet.specs.Reading.{words_for, Behind, Lists, Brackets, Counting};

use crate::words;
use crate::words::Bracket;
use text::lines;

// How often each number is listed, up to twice, and where the words behind the bracket begin.
#[derive(Clone, Copy)]
pub struct Found {
    pub counts: [u8; 3],
    pub at: usize,
}

// What a line says: how often each word is listed, up to twice, and the number of the result, 3 where the line is no rule.
#[derive(Clone, Copy)]
pub struct Counted {
    pub holders: [u8; 3],
    pub accesses: [u8; 3],
    pub origins: [u8; 3],
    pub result: u8,
}

// Where the words behind the first begin, where that is the one expected; otherwise none is left.
fn behind(line: &[u8], at: usize, expected: &[u8]) -> usize
    requires { at ≤ length line.now }
    ensures { Behind line.now at expected.now result }
{
    let word = lines::next_word(&line[at..]);
    if word == expected {
        at + word.len()
    } else {
        line.len()
    }
}

// One more, up to 2.
fn once_more(count: u8) -> u8
    ensures { result ≡ min (count + 1) 2 }
{
    count.saturating_add(1).min(2)
}

// One more of a number.
fn count_one(counts: &mut [u8; 3], n: u8)
    requires { (n < 3) × (length counts.old ≡ 3) }
    ensures { counts.new ≡ set counts.old n (min (get_or counts.old n 0 + 1) 2) }
{
    let i = n as usize;
    counts[i] = once_more(counts[i]);
}

// The words of a bracket, up to the one that closes it.
fn read_list(line: &[u8], start: usize, bracket: Bracket) -> Found
    requires { start ≤ length line.now }
    ensures { Lists line.now start (words_for bracket) result }
{
    let mut counts = [0u8; 3];
    let mut at = start;
    while at < line.len() {
        let word = lines::next_word(&line[at..]);
        let code = words::word_code(bracket, word);
        if 6 <= code {
            return Found {
                counts,
                at: line.len(),
            };
        }
        at += word.len();
        if 3 <= code {
            count_one(&mut counts, code - 3);
            return Found { counts, at };
        }
        count_one(&mut counts, code);
    }
    Found { counts, at }
}

// A bracket with its opening word.
fn read_bracket(line: &[u8], start: usize, opening: &[u8], bracket: Bracket) -> Found
    requires { start ≤ length line.now }
    ensures { Brackets line.now start opening.now (words_for bracket) result }
{
    let at = behind(line, start, opening);
    read_list(line, at, bracket)
}

// What a line says.
pub fn read_rule(line: &[u8]) -> Counted
    ensures { Counting (read_rule line.now) result }
{
    let start = behind(line, 0, b"(rule ");
    let holders = read_bracket(line, start, b"(holder ", Bracket::Holder);
    let second = holders.at;
    let accesses = read_bracket(line, second, b"(access ", Bracket::Access);
    let third = accesses.at;
    let origins = read_bracket(line, third, b"(from ", Bracket::From);
    let last = origins.at;
    let result = words::result_number(&line[last..]);
    let of_holders = holders.counts;
    let of_accesses = accesses.counts;
    let of_origins = origins.counts;
    Counted {
        holders: of_holders,
        accesses: of_accesses,
        origins: of_origins,
        result,
    }
}
