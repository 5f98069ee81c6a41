// The root, and fused results: a product and a posit added, rounded once.
ghost use Rattle.std.specs.Prelude.{◌≡◌};
ghost use Rattle.posit.specs.Operation.{square_root, fused_sum, fused_difference, product_taken};

use super::P32E2;

impl P32E2 {
    pub fn sqrt(self) -> P32E2
        ensures { result.0 ≡ square_root 2 31 self.0 }
    {
        P32E2(square_root::sqrt(self.0))
    }

    // self·a + b
    pub fn mul_add(self, a: P32E2, b: P32E2) -> P32E2
        ensures { result.0 ≡ fused_sum 2 31 self.0 a.0 b.0 }
    {
        P32E2(exact_terms::mul_add(self.0, a.0, b.0))
    }

    // self·a - b
    pub fn mul_sub(self, a: P32E2, b: P32E2) -> P32E2
        ensures { result.0 ≡ fused_difference 2 31 self.0 a.0 b.0 }
    {
        self.mul_add(a, b.neg())
    }

    // self - a·b
    pub fn sub_product(self, a: P32E2, b: P32E2) -> P32E2
        ensures { result.0 ≡ product_taken 2 31 self.0 a.0 b.0 }
    {
        a.neg().mul_add(b, self)
    }
}
