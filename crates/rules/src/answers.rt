// Answers by their numbers.
ghost use Rattle.std.specs.Prelude.{◌≡◌};
ghost use Rattle.model.specs.Answers.{number};

use model::Refusal;

// The number of a refusal.
pub fn number_of(refusal: Refusal) -> u32
    ensures { result ≡ number refusal }
{
    match refusal {
        Refusal::Disordered => 1,
        Refusal::Misspelt => 2,
        Refusal::IllegalSpan => 3,
        Refusal::Unissued => 4,
        Refusal::Ended => 5,
        Refusal::OutsideSpan => 6,
        Refusal::ReadOnly => 7,
        Refusal::TooDeep => 8,
        Refusal::NamesSpent => 9,
        Refusal::TableFull => 10,
        Refusal::BufferTooShort => 11,
        Refusal::Misnamed => 12,
        Refusal::Misgrouped => 13,
        Refusal::GivenTwice => 14,
        Refusal::NotGiven => 15,
        Refusal::NotWritten => 16,
        Refusal::NoHolder => 17,
        Refusal::LimitReached => 18,
        Refusal::NothingStored => 19,
    }
}
