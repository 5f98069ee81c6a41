// When the desk says no, and the number of each refusal and of an answer.
ghost use Rattle.std.specs.Prelude.{◌≡◌};
ghost use Rattle.desk.specs.Answers.{refusal_number, number_of};

#[derive(Clone, Copy, PartialEq, Eq)]
pub enum Refusal {
    WrongLength, // an image, or a claim, that is not 64 bytes long
    BufferTooShort, // for an image
    UnequalLists, // the two lists of a batch
    TooManyPairs, // more than PAIR_LIMIT
    Differs, // a claim, from the image that is rebuilt
}

impl Refusal {
    // 0 is the number of no refusal. A plain method, and no From: a form that is owed (docs/DECISIONS.md).
    pub fn number(self) -> u32
        ensures { result ≡ refusal_number self }
    {
        match self {
            Refusal::WrongLength => 1,
            Refusal::BufferTooShort => 2,
            Refusal::UnequalLists => 3,
            Refusal::TooManyPairs => 4,
            Refusal::Differs => 5,
        }
    }
}

// The number of an answer: that of its refusal, or 0.
pub fn number_of(answer: Result<(), Refusal>) -> u32
    ensures { result ≡ number_of answer }
{
    match answer {
        Ok(()) => 0,
        Err(refusal) => refusal.number(),
    }
}
