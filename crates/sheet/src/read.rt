// Reading a sheet's text.
ghost use Rattle.std.specs.Prelude.{◌≡◌, [], ◌<◌, min, eqb, ltb, get_or};
ghost use Rattle.model.specs.Lists.{any};
ghost use Rattle.sheet.specs.Rules.{places};
ghost use Rattle.sheet.specs.ReadSheet.{judge_text, sheet_into, sheet_answer};
ghost use Rattle.sheet.specs.Reading.{counts_at, Ready, Adds, Noted, ReadsLines};

use crate::rule::{Counted, read_rule};
use model::Refusal;
use table::SheetBytes;
use text::lines;

// How often a line gives the combination at a place, up to twice.
fn given_by(rule: Counted, place: usize) -> u8
    requires { place < 18 }
    ensures { result ≡ counts_at rule place }
{
    let holder = rule.holders[place / 6].min(2);
    let access = rule.accesses[place / 3 % 2].min(2);
    let origin = rule.origins[place % 3].min(2);
    (holder * access * origin).min(2)
}

// What a line adds: how often each combination is given, up to twice, and the result of the first line that gives it.
// Results are numbers here and in `read_lines`: the bytes of a sheet, as C lends it (`kz_sheet`), which may have any value.
fn add_rule(rule: Counted, seen: &mut [u8; 18], results: &mut [u8; 18])
    requires { Ready seen.old results.old }
    ensures { Adds rule seen.old results.old seen.new results.new }
{
    for p in 0..18 {
        let times = given_by(rule, p);
        let before = seen[p];
        if before == 0 {
            if times != 0 {
                results[p] = rule.result;
            }
        }
        seen[p] = (before + times).min(2);
    }
}

// Adds up the lines of a text; false where one of them is no rule.
fn read_lines(text: &[u8], seen: &mut [u8; 18], results: &mut [u8; 18]) -> bool
    requires { Noted [] seen.old results.old }
    ensures { ReadsLines text.now result seen.new results.new }
{
    let mut at = 0;
    while at < text.len() {
        let line = lines::next_line(&text[at..]);
        let rule = read_rule(line);
        if 3 <= rule.result {
            return false;
        }
        add_rule(rule, seen, results);
        at += line.len();
    }
    true
}

// Whether a combination is given twice.
fn some_twice(seen: &[u8; 18]) -> bool
    ensures { result ≡ any (λ p. ltb 1 (get_or seen.now p 0)) places }
{
    seen.iter().any(|times| 1 < *times)
}

// Whether a combination is missing.
fn some_missing(seen: &[u8; 18]) -> bool
    ensures { result ≡ any (λ p. eqb (get_or seen.now p 0) 0) places }
{
    seen.contains(&0)
}

// Reads a sheet's text into the sheet that is lent, unless it is refused.
pub fn read_sheet(text: &[u8], sheet: &mut SheetBytes) -> Result<(), Refusal>
    ensures { (sheet_answer result ≡ judge_text text.now) × (sheet.new ≡ sheet_into text.now sheet.old) }
{
    let mut seen = [0u8; 18];
    let mut results = [2u8; 18];
    if !read_lines(text, &mut seen, &mut results) {
        return Err(Refusal::Misspelt);
    }
    if some_twice(&seen) {
        return Err(Refusal::GivenTwice);
    }
    if some_missing(&seen) {
        return Err(Refusal::NotGiven);
    }
    *sheet = results;
    Ok(())
}
