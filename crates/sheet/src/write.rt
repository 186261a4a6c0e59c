// Writing a sheet: a line for each combination.
// A word is a number here (`put_holder`, `put_access`, `put_origin`, `put_result`, `put_rule`), its place in its list (`word_at`, sheet/specs/Rule),
// as a sheet's bytes have it (`kz_sheet`), which may have any value.
ghost use Rattle.std.specs.Prelude.{◌≡◌, ◌≤◌, ◌<◌, min, length};
ghost use Rattle.text.specs.Put.{Room, Put};
ghost use Rattle.text.specs.Write.{outcome};
ghost use Rattle.sheet.specs.Words.{holder_words, access_words, origin_words, result_words};
ghost use Rattle.sheet.specs.Rule.{word_at, spell_rule};
ghost use Rattle.sheet.specs.WriteSheet.{rule_with, sheet_text, write_sheet};
ghost use Rattle.sheet.specs.Writing.{front_at};

use model::Refusal;
use table::SheetBytes;
use text::pieces;

// A line has at most 63 bytes.
const MOST: usize = 1134;

// Writes a holder's word at a position, and returns the position behind it.
fn put_holder(out: &mut [u8], at: usize, holder: usize) -> usize
    requires { (holder < 3) × Room out.old at (word_at holder_words holder) }
    ensures { Put out.old at (word_at holder_words holder) out.new result }
{
    match holder {
        0 => pieces::put_bytes(out, at, b"reference"),
        1 => pieces::put_bytes(out, at, b"raw"),
        _ => pieces::put_bytes(out, at, b"cell"),
    }
}

// The same of an access.
fn put_access(out: &mut [u8], at: usize, access: usize) -> usize
    requires { (access < 2) × Room out.old at (word_at access_words access) }
    ensures { Put out.old at (word_at access_words access) out.new result }
{
    match access {
        0 => pieces::put_bytes(out, at, b"read"),
        _ => pieces::put_bytes(out, at, b"write"),
    }
}

// The same of where an access comes from.
fn put_origin(out: &mut [u8], at: usize, origin: usize) -> usize
    requires { (origin < 3) × Room out.old at (word_at origin_words origin) }
    ensures { Put out.old at (word_at origin_words origin) out.new result }
{
    match origin {
        0 => pieces::put_bytes(out, at, b"cell"),
        1 => pieces::put_bytes(out, at, b"kin"),
        _ => pieces::put_bytes(out, at, b"stranger"),
    }
}

// The same of a result; a byte above 1 is `end`.
fn put_result(out: &mut [u8], at: usize, res: u8) -> usize
    requires { Room out.old at (word_at result_words (min res 2)) }
    ensures { Put out.old at (word_at result_words (min res 2)) out.new result }
{
    match res {
        0 => pieces::put_bytes(out, at, b"keep"),
        1 => pieces::put_bytes(out, at, b"lower"),
        _ => pieces::put_bytes(out, at, b"end"),
    }
}

// Writes a line's first two brackets but for their end, of the combination at a place.
fn put_front(out: &mut [u8], at: usize, place: usize) -> usize
    requires { (place < 18) × Room out.old at (front_at place) }
    ensures { Put out.old at (front_at place) out.new result }
{
    let past_opening = pieces::put_bytes(out, at, b"(rule (holder ");
    let past_holder = put_holder(out, past_opening, place / 6);
    let past_second = pieces::put_bytes(out, past_holder, b") (access ");
    put_access(out, past_second, place / 3 % 2)
}

// Writes the line of the combination at a place.
fn put_rule(out: &mut [u8], at: usize, place: usize, res: u8) -> usize
    requires { (place < 18) × Room out.old at (spell_rule (rule_with place res)) }
    ensures { Put out.old at (spell_rule (rule_with place res)) out.new result }
{
    let past_access = put_front(out, at, place);
    let past_third = pieces::put_bytes(out, past_access, b") (from ");
    let past_origin = put_origin(out, past_third, place % 3);
    let past_fourth = pieces::put_bytes(out, past_origin, b") ");
    let past_result = put_result(out, past_fourth, res);
    pieces::put_bytes(out, past_result, b")\n")
}

// Writes all lines at the buffer's first bytes.
fn put_rules(sheet: &SheetBytes, out: &mut [u8]) -> usize
    requires { 1134 ≤ length out.old }
    ensures { Put out.old 0 (sheet_text sheet.now) out.new result × (result ≤ 1134) }
{
    let mut at = 0;
    for (place, res) in sheet.iter().enumerate() {
        at = put_rule(out, at, place, *res);
    }
    at
}

// Writes a sheet at the buffer's first bytes, a line for each combination; the text is put together first, so that nothing is written
// where it does not fit.
pub fn write_sheet(sheet: &SheetBytes, out: &mut [u8]) -> Result<usize, Refusal>
    ensures { outcome result out.new ≡ write_sheet sheet.now out.old }
{
    let mut text = [0u8; MOST];
    let length = put_rules(sheet, &mut text);
    if out.len() < length {
        return Err(Refusal::BufferTooShort);
    }
    Ok(pieces::put_bytes(out, 0, &text[..length]))
}
