// The arithmetic: each result is the exact one, rounded once, or NaR. It is done on the patterns, by crates of their own.
ghost use Rattle.std.specs.Prelude.{◌≡◌};
ghost use Rattle.posit.specs.Pattern.{opposite};
ghost use Rattle.posit.specs.Operation.{sum, difference, product, quotient};

use super::P32E2;

impl P32E2 {
    pub fn neg(self) -> P32E2
        ensures { result.0 ≡ opposite 31 self.0 }
    {
        P32E2(0u32.wrapping_sub(self.0))
    }

    pub fn add(self, other: P32E2) -> P32E2
        ensures { result.0 ≡ sum 2 31 self.0 other.0 }
    {
        P32E2(exact_terms::add(self.0, other.0))
    }

    pub fn sub(self, other: P32E2) -> P32E2
        ensures { result.0 ≡ difference 2 31 self.0 other.0 }
    {
        self.add(other.neg())
    }

    pub fn mul(self, other: P32E2) -> P32E2
        ensures { result.0 ≡ product 2 31 self.0 other.0 }
    {
        P32E2(exact_terms::mul(self.0, other.0))
    }

    pub fn div(self, other: P32E2) -> P32E2
        ensures { result.0 ≡ quotient 2 31 self.0 other.0 }
    {
        P32E2(division::div(self.0, other.0))
    }
}
