// What a step brings: one posit or one exact product, with its sign.
ghost use Rattle.std.specs.Prelude.{◌≡◌};
ghost use Rattle.std.specs.Bool.{beq};
ghost use Rattle.posit.specs.Accumulator.{of_posit, of_product};
ghost use Rattle.quire_words.proofs.Operand.{InPlace, brought};

use p32e2::P32E2;
use unpacking::scaled::scaled_of;
use unpacking::{NAR, either_nar};

// NaR, or significand·2^shift with its sign, told one word below the accumulator's unit, in 2^-304: a significand is only moved up. Zero has the significand 0.
// Clauses speak of its fields: a definition over it would have to stand in `specs/` of this crate, where what private clauses use may not stand.
// NaR is a flag: as an Option of an operand without it a product takes 1.06 times as long, and a pair of a batch 140 instructions for 132.
#[derive(Clone, Copy)]
pub(crate) struct Operand {
    pub(crate) nar: bool,
    pub(crate) negative: bool,
    pub(crate) shift: u32,
    pub(crate) significand: u64,
    ghost in_place: { InPlace shift significand },
}

impl Operand {
    // To take an operand is to add it with the other sign. A function of its own: with the sign settled before the step begins, the compiler keeps the words of a batch in registers.
    pub(crate) fn directed(self, added: bool) -> Operand
        ensures { (result.nar ≡ self.nar) × (result.negative ≡ beq self.negative added) × (result.shift ≡ self.shift) × (result.significand ≡ self.significand) }
    {
        // each field, since there is no `..self` of a struct with a ghost field
        Operand {
            nar: self.nar,
            negative: self.negative == added,
            shift: self.shift,
            significand: self.significand,
        }
    }
}

// One posit: from the unit of its significand, 2^-150, it is 154 digits to the operand's.
pub(crate) fn posit_of(p: P32E2) -> Operand
    ensures { brought result.nar result.negative result.shift result.significand ≡ of_posit 2 31 p.0 }
{
    let x = scaled_of(p.0);
    Operand {
        nar: p.0 == NAR,
        negative: p.0 > NAR,
        shift: x.scale + 154,
        significand: x.significand,
    }
}

// The exact product of two: from the unit of the significands' product, 2^-300, it is 4 digits to the operand's.
pub(crate) fn product_of(a: P32E2, b: P32E2) -> Operand
    ensures { brought result.nar result.negative result.shift result.significand ≡ of_product 2 31 a.0 b.0 }
{
    let x = scaled_of(a.0);
    let y = scaled_of(b.0);
    Operand {
        nar: either_nar(a.0, b.0),
        negative: (a.0 > NAR) != (b.0 > NAR),
        shift: x.scale + y.scale + 4,
        significand: x.significand * y.significand,
    }
}
