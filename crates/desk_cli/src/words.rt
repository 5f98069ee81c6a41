// What is printed: one line, the answer or what is wrong.
use super::hex;
use desk::refusal::Refusal;
use std::alloc::AllocError;
use std::{fmt, io};

// What there is to say where nothing is wrong: that the claim is right, or the image of the batch.
#[derive(Drop)]
pub enum Answer {
    Right,
    Image([u8; 64]),
}

impl fmt::Display for Answer {
    fn fmt<W: fmt::Write>(&self, f: &mut fmt::Formatter<W>) -> fmt::Result {
        match self {
            Answer::Right => write!(f, "right"),
            Answer::Image(image) => {
                for byte in image {
                    f.write_char(hex::glyph(byte / 16))?;
                    f.write_char(hex::glyph(byte % 16))?;
                }
                Ok(())
            }
        }
    }
}

// What is wrong with a line of the input.
#[derive(Clone, Copy)]
pub enum Fault {
    NoWord,
    NotPair,
    NotClaim,
    NotBytes,
    NoClaim,
    TextAfterClaim,
}

impl Fault {
    pub(crate) fn in_line(self, line: usize) -> Trouble {
        Trouble::InLine(line, self)
    }
}

impl fmt::Display for Fault {
    fn fmt<W: fmt::Write>(&self, f: &mut fmt::Formatter<W>) -> fmt::Result {
        f.write_str(match self {
            Fault::NoWord => "neither the word claim nor the word image",
            Fault::NotPair => "not a pair of patterns",
            Fault::NotClaim => "not a pair of patterns, nor a claim",
            Fault::NotBytes => "the claim is not two hexadecimal digits to a byte",
            Fault::NoClaim => "no claim",
            Fault::TextAfterClaim => "text after the claim",
        })
    }
}

// Why there is no answer. Lines are numbered from 1.
#[derive(Drop)]
pub enum Trouble {
    NotRead,
    TooLong,
    OutOfMemory,
    InLine(usize, Fault),
    Refused(Refusal),
}

impl fmt::Display for Trouble {
    fn fmt<W: fmt::Write>(&self, f: &mut fmt::Formatter<W>) -> fmt::Result {
        match self {
            Trouble::NotRead => write!(f, "the input could not be read to its end"),
            Trouble::TooLong => write!(f, "the input is longer than 400000 bytes"),
            Trouble::OutOfMemory => write!(f, "out of memory"),
            Trouble::InLine(line, fault) => write!(f, "line {line}: {fault}"),
            Trouble::Refused(refusal) => {
                let number = refusal.number();
                let reason = reason(*refusal);
                write!(f, "{number}: {reason}")
            }
        }
    }
}

// The input is all that is read.
impl From<io::Error> for Trouble {
    fn from(_: io::Error) -> Trouble {
        Trouble::NotRead
    }
}

impl From<AllocError> for Trouble {
    fn from(_: AllocError) -> Trouble {
        Trouble::OutOfMemory
    }
}

impl From<Refusal> for Trouble {
    fn from(refusal: Refusal) -> Trouble {
        Trouble::Refused(refusal)
    }
}

// A function and no Display: the type is the library's, and in a library stands no impl of a trait.
fn reason(refusal: Refusal) -> &'static str {
    match refusal {
        Refusal::WrongLength => "the claim is not 64 bytes long",
        Refusal::BufferTooShort => "the buffer is under 64 bytes",
        Refusal::UnequalLists => "the lists differ in length",
        Refusal::TooManyPairs => "more than 16384 pairs",
        Refusal::Differs => "the claim differs from the rebuilt image",
    }
}
