// The calls of the C interface for texts, over words and bytes that are lent, and nothing else. Those for events alone are of the crate
// `kelzoud_events`.
#![tactic(auto)]

ghost use Rattle.std.specs.Prelude.{◌≡◌, true};
ghost use Rattle.model.specs.Requests.{Unlimited};
ghost use Rattle.kelzoud_events.specs.Interface.{packed, request_in};
ghost use Rattle.kelzoud.specs.Interface.{packed_result, packed_read, packed_ran, spelling_in, event_after, group_after};
ghost use Rattle.listing.specs.ReadInto.{target, answer_into, target_into};
ghost use Rattle.listing.specs.WriteListing.{listing_written, listing_stored};
ghost use Rattle.sheet.specs.ReadSheet.{judge_text, sheet_into};
ghost use Rattle.sheet.specs.WriteSheet.{write_sheet};
ghost use Rattle.table.specs.Words.{rows_in};
ghost use Rattle.table.specs.Sheets.{bytes_of, sheet_lent};
ghost use Rattle.table.specs.Limits.{limits_in};
ghost use Rattle.table.specs.Lent.{tally_in, lent};
ghost use Rattle.table.specs.States.{states_in, emptied};
ghost use Rattle.text.specs.Request.{read_request, write_request};
ghost use Rattle.text.specs.Write;
ghost use Rattle.text.specs.Write.{written};
ghost use Rattle.trace.specs.Check.{check_with, stored_with};
ghost use Rattle.trace.specs.Run;

use crate::answers::{packed_listing, packed_run, packed_sheet, packed_written};
use crate::requests::{read_request, spelling_in, write_request};
use kelzoud_events::events::{Words, asked_in, names_in};
use listing::reading::read_listing;
use listing::writing::write_listing;
use sheet::read::read_sheet;
use sheet::write::write_sheet;
use table::sheets::sheet_lent;
use table::{Row, SheetBytes};
use trace::check;
use trace::run::run;

mod answers;
mod requests;

// A run of a text on the table, the bits, the memory for states and the tally that are lent, by the sheet that is lent, card 6's where no byte of
// one is, with the limits that are lent, none where no number is.
pub fn kz_abi_run(
    table: &mut [Row],
    bits: &mut [u8],
    stored: &mut [Row],
    copies: &mut [u8],
    tally: &mut [u32; 7],
    sheet: &[u8],
    limits: &[u32],
    text: &[u8],
) -> u64
    ensures { (rows_in table.new ≡ (Run.run (sheet_lent sheet.now) (limits_in limits.now) (lent table.old bits.old stored.old copies.old tally.old) text.now).state.memory.table)
        × (bits.new ≡ (Run.run (sheet_lent sheet.now) (limits_in limits.now) (lent table.old bits.old stored.old copies.old tally.old) text.now).state.memory.bits)
        × (states_in stored.new copies.new ≡ (Run.run (sheet_lent sheet.now) (limits_in limits.now) (lent table.old bits.old stored.old copies.old tally.old) text.now).state.slots)
        × (tally_in tally.new ≡ (Run.run (sheet_lent sheet.now) (limits_in limits.now) (lent table.old bits.old stored.old copies.old tally.old) text.now).state.tally)
        × (result ≡ packed_ran (Run.run (sheet_lent sheet.now) (limits_in limits.now) (lent table.old bits.old stored.old copies.old tally.old) text.now)) }
{
    let bytes = sheet_lent(sheet);
    let answer = run(table, bits, stored, copies, tally, &bytes, limits, text);
    packed_run(answer)
}

// Writes the line of a request. A line says who acts, and no limits.
pub fn kz_abi_write_event(event: &Words, names: &[u32], out: &mut [u8]) -> u64
    ensures { (result ≡ packed_result (write_request (request_in Unlimited event.now names.now) out.old).answer)
        × (out.new ≡ (write_request (request_in Unlimited event.now names.now) out.old).buffer) }
{
    let words = *event;
    let asked = asked_in(words);
    let part = names_in(words, names);
    let answer = write_request(asked, part, out);
    packed_written(answer)
}

// Reads a line: the words of the request, and its names where it drops names together.
// `named` stays the word that C hands over, of any value (`kz_read_event`).
pub fn kz_abi_read_event(named: u32, line: &[u8], event: &mut Words, names: &mut [u32; 64]) -> u64
    ensures { (result ≡ packed_read (read_request Unlimited (spelling_in named) line.now))
        × (event.new ≡ event_after (read_request Unlimited (spelling_in named) line.now) event.old)
        × (names.new ≡ group_after (read_request Unlimited (spelling_in named) line.now) names.old) }
{
    let spelling = spelling_in(named);
    read_request(spelling, line, event, names)
}

// Writes the listing of the table that is lent.
pub fn kz_abi_write_listing(table: &[Row], issued: u32, out: &mut [u8]) -> u64
    ensures { (result ≡ packed_result (listing_written (rows_in table.now) issued out.old))
        × (out.new ≡ listing_stored (rows_in table.now) issued out.old) }
{
    let answer = write_listing(table, issued, out);
    packed_written(answer)
}

// Reads a listing into the table and the tally that are lent.
pub fn kz_abi_read_listing(table: &mut [Row], tally: &mut [u32; 7], text: &[u8]) -> u64
    ensures { (rows_in table.new ≡ (target_into text.now (target table.old tally.old)).table)
        × (tally_in tally.new ≡ (target_into text.now (target table.old tally.old)).tally)
        × (result ≡ packed_read (answer_into text.now (target table.old tally.old))) }
{
    let answer = read_listing(text, table, tally);
    packed_listing(answer)
}

// Reads a sheet's text into the sheet that is lent.
pub fn kz_abi_read_sheet(text: &[u8], sheet: &mut SheetBytes) -> u64
    ensures { (result ≡ packed (judge_text text.now) 0)
        × (sheet.new ≡ sheet_into text.now sheet.old) }
{
    let answer = read_sheet(text, sheet);
    packed_sheet(answer)
}

// Writes the one text of the sheet that is lent, card 6's where no byte of one is.
pub fn kz_abi_write_sheet(sheet: &[u8], out: &mut [u8]) -> u64
    ensures { (result ≡ packed_result (write_sheet (bytes_of (sheet_lent sheet.now)) out.old).answer)
        × (out.new ≡ (write_sheet (bytes_of (sheet_lent sheet.now)) out.old).buffer) }
{
    let bytes = sheet_lent(sheet);
    let answer = write_sheet(&bytes, out);
    packed_written(answer)
}

// Writes what `capcheck` prints of an input. The memory for states is lent to work in: it is emptied first, and has then what the run stored.
pub fn kz_abi_check(input: &[u8], stored: &mut [Row], copies: &mut [u8], out: &mut [u8]) -> u64
    ensures { (result ≡ packed_result (written true (check_with (emptied (states_in stored.old copies.old)) input.now) out.old))
        × (out.new ≡ Write.stored true (check_with (emptied (states_in stored.old copies.old)) input.now) out.old)
        × (states_in stored.new copies.new ≡ stored_with (emptied (states_in stored.old copies.old)) input.now) }
{
    let answer = check(input, stored, copies, out);
    packed_written(answer)
}
