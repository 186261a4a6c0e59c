// A report in words, as one number, and as the line that `capsize` prints.
ghost use Rattle.std.specs.Prelude.{◌≡◌, ◌≤◌, length};
ghost use Rattle.text.specs.Put.{Put};
ghost use Rattle.sizes.specs.Report.{word, report_of, report_words, packed_report, report_line};

use crate::Sizing;
use kelzoud_events::answers::{pack, pack_refusal};
use rules::answers::number_of;
use text::pieces::put_line;

fn word_of(n: usize) -> u32
    ensures { result ≡ word n }
{
    n.min(4294967295) as u32
}

// The four words of a report.
pub fn words_of(sizing: Sizing) -> [u32; 4]
    ensures { result ≡ report_words (report_of sizing) }
{
    match sizing {
        Ok(rows) => [0, word_of(rows), 0, 0],
        Err(at) => [
            number_of(at.refusal),
            0,
            word_of(at.client),
            word_of(at.line),
        ],
    }
}

// A report as one number.
pub fn packed_report(sizing: Sizing) -> u64
    ensures { result ≡ packed_report (report_of sizing) }
{
    match sizing {
        Ok(rows) => pack(0, rows as u64),
        Err(at) => pack_refusal(at.refusal, 0),
    }
}

// Writes the line of a report at the buffer's first bytes; the answer is its length.
pub fn put_report(sizing: Sizing, out: &mut [u8]) -> usize
    requires { 48 ≤ length out.old }
    ensures { Put out.old 0 (report_line (report_of sizing)) out.new result }
{
    match sizing {
        Ok(rows) => {
            let numbers = [word_of(rows)];
            put_line(b"(rows", &numbers, out)
        }
        Err(at) => {
            let numbers = [number_of(at.refusal), word_of(at.client), word_of(at.line)];
            put_line(b"(refused", &numbers, out)
        }
    }
}
