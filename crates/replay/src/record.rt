// A record of the input, and whether our code gives its answer.
ghost use Rattle.std.specs.Prelude.{◌<◌, ◌≤◌};

use super::operation::{Operation, Unknown};
use desk::image::{image_of, read_image};
use p32e2::P32E2;
use quire_steps::{add_posit, add_product, neg, qAbs, qAddQ, qSubQ, sub_posit, sub_product};
use quire_totals::to_posit;
use std::io;
use std::io::{ErrorKind, Read};

// An operation's number, two patterns, and then, for the posit's operations, a third pattern and the answer; for the accumulator's, an image. Where whole
// accumulators are operands, two more images are behind that. Patterns are high byte first. Bytes that a record lacks are 0.
#[derive(Clone, Copy)]
pub struct Record {
    bytes: [u8; 201],
}

impl Record {
    // What stands before the first record.
    pub const BLANK: Record = Record { bytes: [0; 201] };

    // The next record, or none where the input ends before it is whole.
    pub(crate) fn read(input: &mut impl Read) -> io::Result<Option<Record>> {
        let mut record = Record::BLANK;
        match record.fill(input) {
            Ok(()) => Ok(Some(record)),
            Err(e) if e.kind() == ErrorKind::UnexpectedEof => Ok(None),
            Err(e) => Err(e),
        }
    }

    fn fill(&mut self, input: &mut impl Read) -> io::Result<()> {
        input.read_exact(&mut self.bytes[..9])?;
        let length = self.length();
        input.read_exact(&mut self.bytes[9..length])
    }

    pub(crate) fn operation(&self) -> Result<Operation, Unknown> {
        Operation::try_from(self.bytes[0])
    }

    // How long the record is, in bytes.
    fn length(&self) -> usize
        ensures { (9 ≤ result) × (result ≤ 201) }
    {
        match self.operation() {
            Ok(operation) if operation < Operation::QuireAddProduct => 17,
            Ok(operation) if operation < Operation::QuireAddQ => 73,
            _ => 201,
        }
    }

    // Pattern i, of four.
    fn pattern(&self, i: usize) -> u32
        requires { i < 4 }
    {
        u32::from_be_bytes(*self.bytes[1 + 4 * i..].first_chunk().unwrap())
    }

    // Image i, of three.
    fn image(&self, i: usize) -> &[u8]
        requires { i < 3 }
    {
        let at = 9 + 64 * i;
        &self.bytes[at..at + 64]
    }

    // The state whose image i is.
    fn state(&self, i: usize) -> [u64; 8]
        requires { i < 3 }
    {
        read_image([0; 8], self.image(i)).unwrap_or([0; 8])
    }

    // Whether our code gives the record's answer. A step leads from the image of the record before it to its own; a rounding is of its own image, and its answer is
    // the first pattern; whole accumulators are in the record, behind its own image. A number that no operation has is not right.
    pub(crate) fn is_right(&self, before: &Record) -> bool {
        let Ok(operation) = self.operation() else {
            return false;
        };
        let a = P32E2(self.pattern(0));
        let b = P32E2(self.pattern(1));
        let c = P32E2(self.pattern(2));
        let gives = |p: P32E2| p.to_bits() == self.pattern(3);
        let q = before.state(0);
        let leads_to = |state: [u64; 8]| image_of(state).as_slice() == self.image(0);
        match operation {
            Operation::PositNeg => gives(a.neg()),
            Operation::PositAdd => gives(a.add(b)),
            Operation::PositSub => gives(a.sub(b)),
            Operation::PositMul => gives(a.mul(b)),
            Operation::PositDiv => gives(a.div(b)),
            Operation::PositRecip => gives(a.recip()),
            Operation::PositSqrt => gives(a.sqrt()),
            Operation::PositMulAdd => gives(a.mul_add(b, c)),
            Operation::PositMulSub => gives(a.mul_sub(b, c)),
            Operation::PositSubProduct => gives(a.sub_product(b, c)),
            Operation::QuireAddProduct => leads_to(add_product(q, a, b)),
            Operation::QuireSubProduct => leads_to(sub_product(q, a, b)),
            Operation::QuireAddPosit => leads_to(add_posit(q, a)),
            Operation::QuireSubPosit => leads_to(sub_posit(q, a)),
            Operation::QuireNeg => leads_to(neg(q)),
            Operation::QuireToPosit => to_posit(self.state(0)).to_bits() == self.pattern(0),
            Operation::QuireAddQ => leads_to(qAddQ(self.state(1), self.state(2))),
            Operation::QuireSubQ => leads_to(qSubQ(self.state(1), self.state(2))),
            Operation::QuireAbs => leads_to(qAbs(self.state(1))),
        }
    }
}
