// Exact terms with their signs: a posit, or the whole product of two.
ghost use Rattle.std.specs.Prelude.{◌≡◌};
ghost use Rattle.posit.specs.Rounding.{rounded};
ghost use Rattle.posit.specs.Operation.{exact, exact_product};
ghost use Rattle.rounding.specs.Packed.{packed_unit};
ghost use Rattle.unpacking.specs.Scaled.{Real, IsScaled};
ghost use Rattle.rounding.proofs.Terms.{Normal, IsTerm, term};

use rounding::pack;
use unpacking::NAR;
use unpacking::scaled::{Scaled, scaled_of};

// significand·2^scale with its sign, in the unit of `pack`; the leading one of the significand is at bit 62, and its lowest bit is 0. Clauses
// speak of its fields: a definition over it would have to stand in `specs/` of this crate, where what private clauses use may not stand.
#[derive(Clone, Copy)]
pub(crate) struct Term {
    pub(crate) negative: bool,
    pub(crate) scale: u32,
    pub(crate) significand: u64,
    ghost normal: { Normal scale significand },
}

impl Term {
    // The term, rounded.
    pub(crate) fn rounded(self) -> u32
        ensures { result ≡ rounded 2 31 packed_unit (term self.negative self.scale self.significand) }
    {
        pack(self.negative, self.scale, self.significand >> 1, false)
    }
}

// A posit that is neither zero nor NaR, with its size.
#[derive(Clone, Copy)]
pub(crate) struct Operand {
    pattern: u32,
    size: Scaled,
    ghost real: { Real pattern },
    ghost sized: { IsScaled pattern size.scale size.significand },
}

impl Operand {
    pub(crate) fn of(p: u32) -> Operand
        requires { Real p }
        ensures { result.pattern ≡ p }
    {
        Operand {
            pattern: p,
            size: scaled_of(p),
        }
    }

    // The posit itself. The unit of `pack` is 936 digits finer than that of the significand, and 32 of them go to the significand.
    pub(crate) fn term(self) -> Term
        ensures { IsTerm (exact 2 31 self.pattern) result.negative result.scale result.significand }
    {
        Term {
            negative: self.pattern > NAR,
            scale: self.size.scale + 904,
            significand: self.size.significand << 32,
        }
    }

    // The product of two has its leading one at bit 60 or 61. The unit of `pack` is 786 digits finer than its own, and 2 or 1 of them go to the significand.
    pub(crate) fn times(self, other: Operand) -> Term
        ensures { IsTerm (exact_product 2 31 self.pattern other.pattern) result.negative result.scale result.significand }
    {
        let negative = (self.pattern > NAR) != (other.pattern > NAR);
        let n = self.size.significand * other.size.significand;
        let scale = self.size.scale + other.size.scale + 784;
        if n < 0x2000_0000_0000_0000 {
            Term {
                negative,
                scale,
                significand: n << 2,
            }
        } else {
            let next = scale + 1;
            Term {
                negative,
                scale: next,
                significand: n << 1,
            }
        }
    }
}
