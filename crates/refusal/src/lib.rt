// The number and the place of an answer, as document 01's table has them.
#![tactic(auto)]

ghost use Rattle.std.specs.Prelude.{◌≡◌};
ghost use Rattle.rules.specs.Refusals.{number_of, place_of};

use rules::{Answer, Refusal};

// The number of an answer: 0 for success, else that of the refusal.
pub fn number(answer: Answer) -> u32
    ensures { result ≡ number_of answer }
{
    match answer {
        Ok(()) => 0,
        Err(Refusal::UnknownPlan) => 1,
        Err(Refusal::LongList) => 2,
        Err(Refusal::LargeKey(_)) => 3,
        Err(Refusal::UnorderedKey(_)) => 4,
        Err(Refusal::ShortBuffer(_)) => 5,
        Err(Refusal::MalformedSketch) => 6,
        Err(Refusal::WrongLength) => 7,
        Err(Refusal::UnknownVersion) => 8,
        Err(Refusal::LargeSize) => 9,
        Err(Refusal::BadValue(_)) => 10,
        Err(Refusal::PaddingSet) => 11,
        Err(Refusal::LargeGap) => 12,
        Err(Refusal::NoDifference) => 13,
        Err(Refusal::FullSketch) => 14,
        Err(Refusal::EmptySketch) => 15,
    }
}

// The place of an answer: 0 for success and wherever document 01 names none.
pub fn place(answer: Answer) -> u32
    ensures { result ≡ place_of answer }
{
    match answer {
        Err(Refusal::LargeKey(index) | Refusal::UnorderedKey(index)) => index,
        Err(Refusal::ShortBuffer(position)) => position,
        Err(Refusal::BadValue(sample)) => sample,
        _ => 0,
    }
}
