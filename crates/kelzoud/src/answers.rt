// Answers of texts as one number for C.
ghost use Rattle.std.specs.Prelude.{◌≡◌};
ghost use Rattle.kelzoud.specs.Interface.{packed_result, packed_read, packed_run};
ghost use Rattle.kelzoud_events.specs.Interface.{packed};
ghost use Rattle.listing.specs.ReadInto.{listing_answer};
ghost use Rattle.sheet.specs.ReadSheet.{sheet_answer};
ghost use Rattle.text.specs.Write.{written_answer};

use kelzoud_events::answers::{pack, pack_refusal};
use model::Refusal;
use trace::run::RefusedAt;

pub fn packed_written(answer: Result<usize, Refusal>) -> u64
    ensures { result ≡ packed_result (written_answer answer) }
{
    match answer {
        Ok(length) => pack(0, length as u64),
        Err(refusal) => pack_refusal(refusal, 0),
    }
}

pub fn packed_listing(answer: Result<u32, Refusal>) -> u64
    ensures { result ≡ packed_read (listing_answer answer) }
{
    match answer {
        Ok(_) => pack(0, 0),
        Err(refusal) => pack_refusal(refusal, 0),
    }
}

pub fn packed_run(answer: Result<usize, RefusedAt>) -> u64
    ensures { result ≡ packed_run answer }
{
    match answer {
        Ok(lines) => pack(0, lines as u64),
        Err(at) => pack_refusal(at.refusal, at.line as u64),
    }
}

pub fn packed_sheet(answer: Result<(), Refusal>) -> u64
    ensures { result ≡ packed (sheet_answer answer) 0 }
{
    match answer {
        Ok(()) => pack(0, 0),
        Err(refusal) => pack_refusal(refusal, 0),
    }
}
