// Answers as numbers for C. In one number the refusal's, 0 for none, stands above the lower 32 bits, and a value in these.
ghost use Rattle.std.specs.Prelude.{◌≡◌, ◌≤◌};
ghost use Rattle.kelzoud_events.specs.Interface.{packed, packed_verdict, answer_words, charge_words};
ghost use Rattle.table.specs.Charge.{charge_of};
ghost use Rattle.model.specs.Answers.{number, verdict_of};

use model::{Name, Refusal};
use rules::answers::number_of;

pub fn pack(number: u64, value: u64) -> u64
    requires { number ≤ 19 }
    ensures { result ≡ packed number value }
{
    number * 4294967296 + value.min(4294967295)
}

pub fn pack_refusal(refusal: Refusal, value: u64) -> u64
    ensures { result ≡ packed (number refusal) value }
{
    pack(number_of(refusal) as u64, value)
}

pub(crate) fn packed_answer(answer: Result<Name, Refusal>) -> u64
    ensures { result ≡ packed_verdict (verdict_of answer) }
{
    match answer {
        Ok(name) => pack(0, name.0 as u64),
        Err(refusal) => pack_refusal(refusal, 0),
    }
}

// An answer as two words.
pub(crate) fn answer_words(answer: Result<Name, Refusal>) -> [u32; 2]
    ensures { result ≡ answer_words (verdict_of answer) }
{
    match answer {
        Ok(name) => [0, name.0],
        Err(refusal) => [number_of(refusal), 0],
    }
}

// A charge as three words.
pub(crate) fn charge_words(charged: Result<(u32, u32), Refusal>) -> [u32; 3]
    ensures { result ≡ charge_words (charge_of charged) }
{
    match charged {
        Ok((share, rest)) => [0, share, rest],
        Err(refusal) => [number_of(refusal), 0, 0],
    }
}
