// The operations that records are of.
use std::fmt;

// The posit's, the steps of the accumulator with its rounding, and those of whole accumulators, in the order of their numbers.
#[derive(Clone, Copy, PartialEq, Eq, PartialOrd, Ord, Debug)]
pub enum Operation {
    PositNeg,
    PositAdd,
    PositSub,
    PositMul,
    PositDiv,
    PositRecip,
    PositSqrt,
    PositMulAdd,
    PositMulSub,
    PositSubProduct,
    QuireAddProduct,
    QuireSubProduct,
    QuireAddPosit,
    QuireSubPosit,
    QuireNeg,
    QuireToPosit,
    QuireAddQ,
    QuireSubQ,
    QuireAbs,
}

// No operation has the number.
#[derive(Clone, Copy, Debug)]
pub struct Unknown;

impl Operation {
    // In the order of their numbers: an array is the plainest map of nineteen.
    pub const ALL: [Operation; 19] = [
        Operation::PositNeg,
        Operation::PositAdd,
        Operation::PositSub,
        Operation::PositMul,
        Operation::PositDiv,
        Operation::PositRecip,
        Operation::PositSqrt,
        Operation::PositMulAdd,
        Operation::PositMulSub,
        Operation::PositSubProduct,
        Operation::QuireAddProduct,
        Operation::QuireSubProduct,
        Operation::QuireAddPosit,
        Operation::QuireSubPosit,
        Operation::QuireNeg,
        Operation::QuireToPosit,
        Operation::QuireAddQ,
        Operation::QuireSubQ,
        Operation::QuireAbs,
    ];
}

impl TryFrom<u8> for Operation {
    type Error = Unknown;

    fn try_from(number: u8) -> Result<Operation, Unknown> {
        Operation::ALL
            .get(usize::from(number))
            .copied()
            .ok_or(Unknown)
    }
}

impl fmt::Display for Operation {
    fn fmt<W: fmt::Write>(&self, f: &mut fmt::Formatter<W>) -> fmt::Result {
        f.write_str(match self {
            Operation::PositNeg => "posit neg",
            Operation::PositAdd => "posit add",
            Operation::PositSub => "posit sub",
            Operation::PositMul => "posit mul",
            Operation::PositDiv => "posit div",
            Operation::PositRecip => "posit recip",
            Operation::PositSqrt => "posit sqrt",
            Operation::PositMulAdd => "posit mul_add",
            Operation::PositMulSub => "posit mul_sub",
            Operation::PositSubProduct => "posit sub_product",
            Operation::QuireAddProduct => "quire add_product",
            Operation::QuireSubProduct => "quire sub_product",
            Operation::QuireAddPosit => "quire add_posit",
            Operation::QuireSubPosit => "quire sub_posit",
            Operation::QuireNeg => "quire neg",
            Operation::QuireToPosit => "quire to_posit",
            Operation::QuireAddQ => "quire qAddQ",
            Operation::QuireSubQ => "quire qSubQ",
            Operation::QuireAbs => "quire qAbs",
        })
    }
}
