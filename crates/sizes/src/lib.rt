// Card 13, "trying table sizes": the fewest rows with which simulated clients get every line allowed, found in one run.
#![tactic(auto)]

ghost use Rattle.std.specs.Prelude.{◌≡◌, ◌≤◌, length, take};
ghost use Rattle.sizes.specs.Report.{report_of, sizing, report_words, packed_report, report_line};

use fit::{do_fit, lay_out};
use model::{Refusal, Tally};
use report::{packed_report, put_report, words_of};
use rounds::run_clients;
use table::WIDTH;
use turn::Standing;

mod fit;
mod names;
mod report;
mod rounds;
mod turn;

// The first refusal with 1,024 rows, with its client and the line within that client's trace, both from 1, or 0 where the lengths do not fit
// the texts.
#[derive(Clone, Copy)]
pub struct RefusedAt {
    pub refusal: Refusal,
    pub client: usize,
    pub line: usize,
}

// What clients' texts are answered: the fewest rows, up to 1,024, with which every line is allowed; or the first refusal.
pub type Sizing = Result<usize, RefusedAt>;

// The report on clients whose texts stand end to end, by their lengths. All lines are taken once, on 1,024 rows; nothing is allocated.
pub fn sizes(text: &[u8], lengths: &[u32]) -> Sizing
    ensures { report_of result ≡ sizing text.now lengths.now }
{
    if !do_fit(text, lengths) {
        return Err(RefusedAt {
            refusal: Refusal::Misspelt,
            client: 0,
            line: 0,
        });
    }
    let mut at = [0usize; 8];
    let mut ends = [0usize; 8];
    lay_out(lengths, &mut at, &mut ends);
    let tally = Tally {
        issued: 0,
        creates: 0,
        borrows: 0,
        reads: 0,
        writes: 0,
        drops: 0,
        refused: 0,
    };
    let from = Standing {
        tally,
        live: 0,
        used: 0,
        most: 0,
    };
    let mut table = [[0u32; WIDTH]; 1024];
    let mut places = [0u16; 1024];
    let mut bits = [0u8; 8192];
    let mut names = [0u32; 2048];
    let mut keys = [0u32; 2048];
    let mut note = [0u16; 4096];
    let mut counts = [0u32; 8];
    run_clients(
        text,
        &mut at,
        &ends,
        lengths.len(),
        &mut table,
        &mut places,
        &mut bits,
        &mut names,
        &mut keys,
        &mut note,
        &mut counts,
        from,
    )
}

// What `capsize` prints: its length, and an array that begins with it.
#[derive(Clone, Copy)]
pub struct Printed {
    pub bytes: [u8; 48],
    pub length: usize,
}

// What `capsize` prints of clients' texts: one line, that has no more bytes than the array.
pub fn sizes_text(text: &[u8], lengths: &[u32]) -> Printed
    ensures { (take result.length result.bytes ≡ report_line (sizing text.now lengths.now)) × (result.length ≤ 48) × (length result.bytes ≡ 48) }
{
    let found = sizes(text, lengths);
    let mut bytes = [0u8; 48];
    let length = put_report(found, &mut bytes);
    Printed { bytes, length }
}

// The report on clients' texts in four words: the refusal, the rows, the client and the line, with 0 for what it lacks. The answer is the rows,
// or the refusal.
pub fn kz_abi_sizes(text: &[u8], lengths: &[u32], report: &mut [u32; 4]) -> u64
    ensures { (report.new ≡ report_words (sizing text.now lengths.now))
        × (result ≡ packed_report (sizing text.now lengths.now)) }
{
    let found = sizes(text, lengths);
    *report = words_of(found);
    packed_report(found)
}
