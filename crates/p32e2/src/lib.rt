// Posits of 32 bits with two exponent digits: the patterns by value, their constants, and a pattern taken apart.
#![tactic(auto)]

mod math; // math.rt: the root, and fused results
mod ops; // ops.rt: the arithmetic

ghost use Rattle.std.specs.Prelude.{◌≡◌, ◌-◌, ◌^◌, [], ◌∷◌, ◌==◌};
ghost use Rattle.posit.specs.Pattern.{nar, opposite};
ghost use Rattle.posit.specs.Operation.{quotient};
ghost use Rattle.unpacking.specs.Parts.{parts};
ghost use Rattle.unpacking.specs.Unpacked.{meaning};

pub use unpacking::Unpacked;

#[derive(Clone, Copy, PartialEq, Eq)]
pub struct P32E2(pub u32);

impl P32E2 {
    pub const ZERO: P32E2 = P32E2(0);

    pub const ONE: P32E2 = P32E2(0x4000_0000);

    pub const NAR: P32E2 = P32E2(0x8000_0000);

    pub const MIN: P32E2 = P32E2(0x8000_0001);

    pub const MAX: P32E2 = P32E2(0x7FFF_FFFF);

    pub const MIN_POSITIVE: P32E2 = P32E2(1);

    // The source's names, as plain methods, are a form that is owed (docs/DECISIONS.md); `is_zero` and `is_nar` differ in a constant, and each is one comparison.
    pub fn from_bits(v: u32) -> P32E2
        ensures { result.0 ≡ v }
    {
        P32E2(v)
    }

    pub fn to_bits(self) -> u32
        ensures { result ≡ self.0 }
    {
        self.0
    }

    pub fn is_zero(self) -> bool
        ensures { result ≡ (self.0 == 0) }
    {
        self == P32E2::ZERO
    }

    pub fn is_nar(self) -> bool
        ensures { result ≡ (self.0 == nar 31) }
    {
        self == P32E2::NAR
    }

    pub fn recip(self) -> P32E2
        ensures { result.0 ≡ quotient 2 31 (2 ^ 30) self.0 }
    {
        P32E2::ONE.div(self)
    }

    pub fn unpack(self) -> Unpacked
        ensures { meaning result ≡ parts 2 31 self.0 }
    {
        unpacking::unpack(self.0)
    }
}

// The constants' patterns, in the order of their declarations. Nothing calls this: its contract ties the constants to the definitions.
fn patterns_of_constants() -> [u32; 6]
    ensures { result ≡ 0 ∷ 2 ^ 30 ∷ nar 31 ∷ opposite 31 (2 ^ 31 - 1) ∷ (2 ^ 31 - 1) ∷ 1 ∷ [] }
{
    [
        P32E2::ZERO.0,
        P32E2::ONE.0,
        P32E2::NAR.0,
        P32E2::MIN.0,
        P32E2::MAX.0,
        P32E2::MIN_POSITIVE.0,
    ]
}
